// Writes the digests of the FIPS 180-4 messages and the published layer examples, a line for each.
#![tactic(auto)]

use std::io;

fn print_digest(rt: &impl Print, message: &[u8]) -> io::Result<()> {
    let mut digest = [0u8; 32];
    // A message that is too long has zeros for its digest.
    let _ = sha256::digest(message, &mut digest);
    for byte in &digest {
        print!(rt; "{byte:02x}")?;
    }
    println!(rt; "")
}

fn print_layer(rt: &impl Print, text: &[u8]) -> io::Result<()> {
    if let Ok(layer) = key_calls::layer(text) {
        println!(rt; "{layer}")?;
    }
    Ok(())
}

// Behind a call the array is a name with its length; in place its million elements would be written out in the proof.
fn million() -> [u8; 1000000] {
    [b'a'; 1000000]
}

fn main(rt: HostRuntime) -> io::Result<()> {
    print_digest(&rt, b"")?;
    print_digest(&rt, b"abc")?;
    print_digest(
        &rt,
        b"abcdbcdecdefdefgefghfghighijhijkijkljklmklmnlmnomnopnopq",
    )?;
    let message = million();
    print_digest(&rt, &message)?;
    print_layer(&rt, b"2653ae71")?;
    print_layer(&rt, b"blue")?;
    print_layer(&rt, b"app.bsky.feed.post/454397e440ec")?;
    print_layer(&rt, b"app.bsky.feed.post/9adeb165882c")?;
    Ok(())
}
