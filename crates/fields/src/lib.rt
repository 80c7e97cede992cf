// Little-endian numbers in a slice of bytes.
//
// Every access of the two lent memories goes through this trait. Each method asks that the number lies in the slice;
// the callers are the columns of the control memory, the links of the area's blocks, the rows of the reports, and the
// records of a schedule.
#![tactic(auto)]

ghost use Rattle.std.specs.Prelude.{◌≡◌, ℕ, ◌+◌, ◌≤◌, length, refl};
ghost use Rattle.fields.specs.Little.{get_le, set_le};

// A number of one of the widths that the pool's memories use.
pub trait Number: Copy {
    // How many bytes it takes.
    ghost width: { ℕ };

    // The number that a value of the type is.
    ghost value: { Self → ℕ };

    ghost WIDTH: { ℕ };

    const WIDTH: usize;

    // The number that begins at a byte.
    fn load(s: &[u8], at: usize) -> Self
        requires { at + width ≤ length s.now }
        ensures { value result ≡ get_le s.now at width };

    // Writes the number from a byte on.
    fn store(self, s: &mut [u8], at: usize)
        requires { at + width ≤ length s.old }
        ensures { s.new ≡ set_le s.old at width (value self) };

    // The constant that the code uses is the width.
    ghost is_width: { WIDTH ≡ width };
}

impl Number for u8 {
    ghost width = { 1 };

    ghost value = { λ n. n };

    ghost WIDTH = { 1 };

    ghost is_width = { refl };

    const WIDTH: usize = 1;

    fn load(s: &[u8], at: usize) -> u8 {
        s[at]
    }

    fn store(self, s: &mut [u8], at: usize) {
        s[at] = self;
    }
}

impl Number for u16 {
    ghost width = { 2 };

    ghost value = { λ n. n };

    ghost WIDTH = { 2 };

    ghost is_width = { refl };

    const WIDTH: usize = 2;

    fn load(s: &[u8], at: usize) -> u16 {
        let low = u8::load(s, at);
        let high = u8::load(s, at + 1);
        (low as u16) + (high as u16) * 256
    }

    fn store(self, s: &mut [u8], at: usize) {
        ((self % 256) as u8).store(s, at);
        ((self / 256) as u8).store(s, at + 1);
    }
}

impl Number for u32 {
    ghost width = { 4 };

    ghost value = { λ n. n };

    ghost WIDTH = { 4 };

    ghost is_width = { refl };

    const WIDTH: usize = 4;

    fn load(s: &[u8], at: usize) -> u32 {
        let low = u16::load(s, at);
        let high = u16::load(s, at + 2);
        (low as u32) + (high as u32) * 65_536
    }

    fn store(self, s: &mut [u8], at: usize) {
        ((self % 65_536) as u16).store(s, at);
        ((self / 65_536) as u16).store(s, at + 2);
    }
}

impl Number for u64 {
    ghost width = { 8 };

    ghost value = { λ n. n };

    ghost WIDTH = { 8 };

    ghost is_width = { refl };

    const WIDTH: usize = 8;

    fn load(s: &[u8], at: usize) -> u64 {
        let low = u32::load(s, at);
        let high = u32::load(s, at + 4);
        (low as u64) + (high as u64) * 4_294_967_296
    }

    fn store(self, s: &mut [u8], at: usize) {
        ((self % 4_294_967_296) as u32).store(s, at);
        ((self / 4_294_967_296) as u32).store(s, at + 4);
    }
}
