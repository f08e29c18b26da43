// The bytes of a doubleword, and accesses of some of them (rules M11, M17 and A4). Bytes are counted from the lowest: byte j is the rules'
// byte 7 - j, and its mark is bit j of the marks.
#![tactic(auto)]

ghost use Rattle.std.specs.Prelude.{◌≡◌, ◌+◌, ◌%◌, ◌<◌, ◌≤◌};
ghost use Rattle.doubleword.specs.Doubleword.{bytes, merged, only_marked, lowest, part, marks_of, placed};
ghost use Rattle.doubleword.specs.Inner.{spread};

use base::DOUBLEWORD_BYTES;

const BYTES: u32 = DOUBLEWORD_BYTES as u32;

// The marks of all eight bytes.
pub const ALL: u8 = 255;

// A byte of ones for each mark, without a loop.
#[tactic(auto, unfolding(crate::specs::Inner::spread))]
fn spread(marks: u8) -> u64
    ensures { result ≡ spread marks }
{
    let each = (marks as u64 * 0x0101_0101_0101_0101) & 0x8040_2010_0804_0201;
    let top = (each + 0x0040_6070_787C_7E7F) & 0x8080_8080_8080_8080;
    top / 128 * 255
}

// A doubleword with the marked bytes of a new one and the other bytes of an old one.
pub fn merged(marks: u8, old: u64, new: u64) -> u64
    ensures { result ≡ merged marks old new }
{
    if marks == ALL {
        return new;
    }
    let mask = spread(marks);
    (new & mask) | (old & !mask)
}

// The bytes that are not marked are zero.
pub fn only_marked(marks: u8, v: u64) -> bool
    ensures { result ≡ only_marked marks v }
{
    merged(marks, 0, v) == v
}

// The lowest byte of an aligned access of less than eight bytes.
pub fn lowest(width: u32, address: u32) -> u32
    requires { width + address % bytes ≤ bytes }
    ensures { result ≡ lowest width address }
{
    BYTES - width - address % BYTES
}

// The number that some bytes make. Place and width stand apart, here and in `marks_of` and `placed`, as the definitions of these names take them.
pub fn part(low: u32, width: u32, v: u64) -> u64
    requires width_nonzero { 0 < width }
    requires width_bound { low + width ≤ bytes }
    ensures { result ≡ part low width v }
{
    if width == BYTES {
        return v;
    }
    (v >> (8 * low)) % (1 << (8 * width))
}

// The marks of some bytes, and a register's low bytes at their places.
pub fn marks_of(low: u32, width: u32) -> u8
    requires { low + width ≤ bytes }
    ensures { result ≡ marks_of low width }
{
    let ones: u32 = (1 << width) - 1;
    (ones << low) as u8
}

pub fn placed(low: u32, width: u32, x: u64) -> u64
    requires width_nonzero { 0 < width }
    requires width_bound { low + width ≤ bytes }
    ensures { result ≡ placed low width x }
{
    if width == BYTES {
        return x;
    }
    (x % (1 << (8 * width))) << (8 * low)
}
