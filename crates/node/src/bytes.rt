// The bytes of a word, read, put in and taken out by shifts and masks.
ghost use Rattle.std.specs.Prelude.{◌≡◌, ℕ, suc, ◌*◌, ◌%◌, ◌^◌, ◌≤◌, ◌<◌, get_or};
ghost use Rattle.node.specs.Lists.{insert, remove};
ghost use Rattle.node.specs.Slot.{byte, bytes};

// Byte i, 0 the lowest.
pub fn byte_at(w: u64, i: u64) -> u64
    requires { i < 8 }
    ensures { result ≡ get_or (bytes 8 w) i 0 }
{
    (w >> (8 * i)) & 0xff
}

// The lowest n bytes.
pub fn low_bytes(w: u64, n: u64) -> u64
    requires { n < 8 }
    ensures { result ≡ w % 2 ^ (8 * n) }
{
    w & ((1 << (8 * n)) - 1)
}

// w with b put in at byte i, the bytes from i on one place up. The top byte of w is zero.
pub fn insert_byte(w: u64, i: u64, b: u64) -> u64
    requires { (i < 8) × (b < byte) × (w < 2 ^ 56) }
    ensures { (n : ℕ) → i ≤ n → bytes (suc n) result ≡ insert i b (bytes n w) }
{
    let k = 8 * i;
    ((((w >> k) << 8) | b) << k) | low_bytes(w, i)
}

// w with byte i taken out, the bytes past i one place down.
pub fn remove_byte(w: u64, i: u64) -> u64
    requires { i < 8 }
    ensures { (n : ℕ) → i ≤ n → bytes n result ≡ remove i (bytes (suc n) w) }
{
    let k = 8 * i;
    (((w >> k) >> 8) << k) | low_bytes(w, i)
}
