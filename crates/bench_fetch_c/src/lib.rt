// `bench_fetch` for C: each export calls the library's function of its name, and states its clauses again.
#![tactic(auto)]

ghost use Rattle.std.specs.Prelude.{◌≡◌};
ghost use Rattle.jirvuntsag.specs.Told.{told, open_in};
ghost use Rattle.bench_fetch.specs.Asked.{answer_of};

// A field by the fetch that takes three bytes, to be timed.
#[unsafe(no_mangle)]
pub extern "C" fn jirvuntsag_bench_field(image: &[u8], at: usize, width: usize) -> u32
    ensures { result ≡ answer_of image.now at width }
{
    bench_fetch::jirvuntsag_bench_field(image, at, width)
}

// The same by the fetch that takes one bit at a time.
#[unsafe(no_mangle)]
pub extern "C" fn jirvuntsag_bench_field_singly(image: &[u8], at: usize, width: usize) -> u32
    ensures { result ≡ answer_of image.now at width }
{
    bench_fetch::jirvuntsag_bench_field_singly(image, at, width)
}

// Opens an image as `jirvuntsag_open` does, under a name of its own, to be timed by either fetch (tools/bench-archive).
#[unsafe(no_mangle)]
pub extern "C" fn jirvuntsag_bench_open(
    image: &[u8],
    table: &mut [u16],
    state: &mut [u32; 89],
) -> u64
    ensures { told result state.new table.new ≡ open_in image.now table.old }
{
    bench_fetch::jirvuntsag_bench_open(image, table, state)
}
