ghost use Rattle.std.specs.Prelude.{◌≡◌, ◌≤◌, ◌+◌, ◌++◌, length};
ghost use Rattle.arrayvec.specs.ArrayVec.{array_vec_len};

use arrayvec::ArrayVec;

/// Adds octets to a buffer that has room for them.
pub fn append<const N: usize>(buffer: &mut ArrayVec<u8, N>, octets: &[u8])
    requires { array_vec_len buffer.old + length octets.now ≤ N }
    ensures items { buffer.new.items ≡ buffer.old.items ++ octets.now }
    ensures len { array_vec_len buffer.new ≡ array_vec_len buffer.old + length octets.now }
{
    buffer.try_extend_from_slice(octets).unwrap();
}
