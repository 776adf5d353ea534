// Strings of bytes: comparing, copying and clearing.
#![tactic(auto)]

ghost use Rattle.std.specs.Prelude.{◌≡◌, ◌≤◌, length};
ghost use Rattle.bytestring.specs.Bytes.{zeros, equal, front};

// Whether two strings are equal. The loop does not stop at a difference, so that it can compare many bytes at once; the slices' own equality
// takes longer on the few fixed bytes of an entry.
pub fn same_bytes(a: &[u8], b: &[u8]) -> bool
    ensures { result ≡ equal a.now b.now }
{
    if a.len() != b.len() {
        return false;
    }
    let mut same = true;
    for i in 0..a.len() {
        same = same & (a[i] == b[i]);
    }
    same
}

// These bytes, at the front of the output.
pub fn write_bytes(out: &mut [u8], bytes: &[u8])
    requires { length bytes.now ≤ length out.old }
    ensures { out.new ≡ front bytes.now out.old }
{
    // The library's copy would be memmove, which a program without a C library may not have.
    for i in 0..bytes.len() {
        out[i] = bytes[i];
    }
}

// The output, zero from end to end.
pub fn clear(out: &mut [u8])
    ensures { out.new ≡ zeros (length out.old) }
{
    out.fill(0);
}
