// What a body that was read means, byte by byte.
ghost use Rattle.makes.specs.Laws.{Tables-plain, Counters-plain, Stocks-plain};

// The meaning of each make that a reader gives is what the bytes of its body say: no guard of the meaning is at work.
pub fn bodies_mean_their_bytes() -> u8
    ensures tables { Tables-plain }
    ensures counters { Counters-plain }
    ensures stocks { Stocks-plain }
{
    0
}
