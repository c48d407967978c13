// Memory for blocks, and for the lists that a program keeps.
ghost use Rattle.std.specs.Prelude.{◌≡◌, length};

// N times a value; it says its length alone.
pub fn filled<T: Copy, const N: usize>(value: T) -> [T; N]
    ensures { length result ≡ N }
{
    [value; N]
}

// Zeros for a block of the input or the output.
pub fn large_buffer() -> [u8; 65536]
    ensures { length result ≡ 65536 }
{
    filled(0)
}
