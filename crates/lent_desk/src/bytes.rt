//! Bytes that are put into a buffer.
ghost use Rattle.std.specs.Prelude.{◌≡◌, ◌≤◌, ◌+◌, ◌-◌, ◌++◌, length, take, drop};

/// Puts bytes at the front of a buffer.
pub fn copy_front(buf: &mut [u8], from: &[u8])
    requires { length from.now ≤ length buf.old }
    ensures front { take (length from.now) buf.new ≡ from.now }
    ensures len { length buf.new ≡ length buf.old }
{
    let count = from.len();
    buf[..count].copy_from_slice(from);
}

/// Puts bytes in at a place.
pub fn put_at(buf: &mut [u8], at: usize, bytes: &[u8])
    requires { at + length bytes.now ≤ length buf.old }
    ensures front { take (at + length bytes.now) buf.new ≡ take at buf.old ++ bytes.now }
    ensures rest { drop (at + length bytes.now) buf.new ≡ drop (at + length bytes.now) buf.old }
    ensures len { length buf.new ≡ length buf.old }
{
    let end = at + bytes.len();
    buf[at..end].copy_from_slice(bytes);
}

/// Puts bytes after the last `said` ones, which move towards the front. O(`said` + what is put).
pub fn put_last(buf: &mut [u8], said: usize, bytes: &[u8])
    requires { said + length bytes.now ≤ length buf.old }
    ensures front { take (length buf.old - (said + length bytes.now)) buf.new
        ≡ take (length buf.old - (said + length bytes.now)) buf.old }
    ensures last { drop (length buf.old - (said + length bytes.now)) buf.new
        ≡ drop (length buf.old - said) buf.old ++ bytes.now }
    ensures len { length buf.new ≡ length buf.old }
{
    let start = buf.len() - said;
    let at = start - bytes.len();
    buf.copy_within(start.., at);
    put_at(buf, at + said, bytes);
}
