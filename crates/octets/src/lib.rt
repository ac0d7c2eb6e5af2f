// Numbers as bytes, least byte first, of any width: what they are worth, and how they are written, is defined in specs/.
#![tactic(auto)]

ghost use Rattle.std.specs.Prelude.{◌≡◌, ◌+◌, ◌≤◌, length};
ghost use Rattle.std.proofs.lemmas.List.Edits.{sets};
ghost use Rattle.octets.specs.Numbers.{digits};

// A number's last N bytes.
pub fn last_bytes<const N: usize>(x: u64) -> [u8; N]
    ensures { result ≡ digits N x }
{
    let mut bytes = [0; N];
    let mut rest = x;
    for byte in &mut bytes {
        *byte = (rest % 256) as u8;
        rest /= 256;
    }
    bytes
}

// Bytes put into others from a place on.
pub fn put_bytes(out: &mut [u8], at: usize, bytes: &[u8])
    requires { at + length bytes.now ≤ length out.old }
    ensures { out.new ≡ sets out.old at bytes.now }
{
    out[at..at + bytes.len()].copy_from_slice(bytes);
}
