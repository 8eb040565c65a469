// Bytes and decimal numbers, written after what a buffer holds.
ghost use Rattle.std.specs.Prelude.{◌≡◌, ◌+◌, ◌≤◌, ◌++◌, length};
ghost use Rattle.arrayvec.specs.ArrayVec.{array_vec_len};
ghost use Rattle.line.specs.Line.{digits};

use arrayvec::ArrayVec;

pub fn write_bytes<const N: usize>(out: &mut ArrayVec<u8, N>, bytes: &[u8])
    requires { array_vec_len out.old + length bytes.now ≤ N }
    ensures { out.new.items ≡ out.old.items ++ bytes.now }
{
    out.try_extend_from_slice(bytes).unwrap();
}

#[tactic(auto, using(crate::proofs::Decimal::digits_decimal, std::proofs::lemmas::Grind::common_steps))]
pub fn write_number<const N: usize>(out: &mut ArrayVec<u8, N>, x: u64)
    requires { array_vec_len out.old + length (digits x) ≤ N }
    ensures { out.new.items ≡ out.old.items ++ digits x }
{
    write_bytes(out, itoa::Buffer::new().format(x).as_bytes());
}
