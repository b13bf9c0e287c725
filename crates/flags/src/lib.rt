// The warnings as a mask of eight flags: bit 0 is the highest warning and bit 7 is WR.
// Of any other mask the eight lowest bits are looked at. specs/Flags.antt says the same of lists of flags.
#![tactic(auto)]

ghost use Rattle.std.specs.Prelude.{◌≡◌};
ghost use Rattle.flags.specs.Flags.{bits, mask, active as activeOf, either, count, first};

// The flags of an axis: the seven of the mask in its record, and WR.
pub fn active(m: u32, wr: bool) -> u32
    ensures { result ≡ mask (activeOf m wr) }
{
    if wr { 128 + m % 128 } else { m % 128 }
}

// The flags that are active in a or in b.
pub fn union(a: u32, b: u32) -> u32
    ensures { result ≡ mask (either (bits 8 a) (bits 8 b)) }
{
    (a | b) % 256
}

// How many flags are active.
pub fn number(m: u32) -> u32
    ensures { result ≡ count (bits 8 m) }
{
    u32::count_ones(m % 256)
}

// The place of the highest active flag, from 0; 8 where none is active.
pub fn highest(m: u32) -> u32
    ensures { result ≡ first (bits 8 m) }
{
    let flags = m % 256;
    if flags == 0 {
        8
    } else {
        u32::trailing_zeros(flags)
    }
}
