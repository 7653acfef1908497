// Slices of any type.
#![tactic(auto)]

ghost use Rattle.std.specs.Prelude.{◌≡◌, length};

// Copies all of src over dst, which is as long. Written as a loop, of which the compiler makes a call of memcpy: std's
// `copy_from_slice` calls memmove, and the archive is to call memcpy and memset alone.
pub fn copy<T: Copy>(src: &[T], dst: &mut [T])
    requires { length src.now ≡ length dst.old }
    ensures { dst.new ≡ src.now }
{
    for i in 0..src.len() {
        dst[i] = src[i];
    }
}
