// Digests, codecs and values at places of a string of bytes. The functions are for the crates above and no public calls.
#![tactic(auto)]

ghost use Rattle.std.specs.Prelude.{◌≡◌, ◌+◌, ◌≤◌, ◌↔◌, length, IsSome, IfSome};
ghost use Rattle.bytestring.specs.Bytes.{equal};
ghost use Rattle.value.specs.Value.{digest_length, digest_in, is_codec, value_length, codec_in, value_in};

use bytestring::same_bytes;

// The bytes of a digest.
pub const DIGEST: usize = 32;

// A digest.
pub type Digest = [u8; DIGEST];

// The codecs of values: a raw file, and a record block.
pub const RAW: u8 = 0x55;

pub const DAG_CBOR: u8 = 0x71;

// The bytes of a value.
pub const VALUE: usize = 33;

// A value: a codec, and a digest behind it.
pub type Value = [u8; VALUE];

// How many bytes before its digest the codec of a value stands in a page.
const TO_CODEC: usize = 3;

// The digest at a place, where enough bytes stand there.
fn digest_from(s: &[u8], at: usize) -> Option<&Digest>
    ensures there { IsSome result ↔ (at + digest_length ≤ length s.now) }
    ensures value { IfSome result (λ d. d.now ≡ digest_in s.now at) }
{
    s.get(at..)?.first_chunk()
}

// The digest at a place; zeros where fewer bytes stand there.
pub fn digest_at(s: &[u8], at: usize) -> Digest
    ensures { at + digest_length ≤ length s.now → result ≡ digest_in s.now at }
{
    match digest_from(s, at) {
        Some(digest) => *digest,
        None => [0; DIGEST],
    }
}

// Whether this digest stands at a place.
pub fn same_digest(s: &[u8], at: usize, digest: &[u8]) -> bool
    requires { length digest.now ≡ digest_length }
    ensures { result ≡ equal (digest_in s.now at) digest.now }
{
    match digest_from(s, at) {
        Some(stands) => same_bytes(stands, digest),
        None => false,
    }
}

// Whether a byte is the codec of a value.
#[tactic(auto, unfolding(crate::specs::Value::is_codec))]
pub fn is_codec(byte: u8) -> bool
    ensures { result ≡ is_codec byte }
{
    matches!(byte, RAW | DAG_CBOR)
}

// The codec of the value whose digest stands at a place; 0 where it would stand past the end.
pub fn codec_at(s: &[u8], at: usize) -> u8
    ensures { result ≡ codec_in s.now at }
{
    match s.get(at.saturating_sub(TO_CODEC)) {
        Some(codec) => *codec,
        None => 0,
    }
}

// The value whose digest stands at a place; zeros where fewer bytes stand there.
pub fn value_at(s: &[u8], at: usize) -> Value
    ensures { at + digest_length ≤ length s.now → result ≡ value_in s.now at }
{
    let Some(digest) = digest_from(s, at) else {
        return [0; VALUE];
    };
    let mut value = [codec_at(s, at); VALUE];
    value[1..].copy_from_slice(digest);
    value
}

// The value that 33 bytes are; zeros where there are fewer or more.
pub fn as_value(bytes: &[u8]) -> Value
    ensures { length bytes.now ≡ value_length → result ≡ bytes.now }
{
    match bytes.as_array() {
        Some(value) => *value,
        None => [0; VALUE],
    }
}
