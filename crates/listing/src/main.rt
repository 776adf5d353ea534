// The listing program: reads a register from standard input and writes its listing.
#![tactic(auto)]

mod text; // the text for a register

ghost use Rattle.std.specs.Prelude.{◌≡◌, take, length, IfOk, IfSome};
ghost use Rattle.listing.specs.Text.{IsPrefixLen, ListsInput};

use crate::text::list_input;
use std::io;
use std::io::Read;

// One byte more than the longest input, so that a longer one is seen.
fn input() -> [u8; 65537] {
    [0u8; 65537]
}

// Room for every listing.
fn output() -> [u8; 524288] {
    [0u8; 524288]
}

// Reads until the buffer is full or the input ends: how many bytes were read.
fn read_full<R: Read>(reader: &mut R, buffer: &mut [u8]) -> io::Result<usize>
    ensures prefix { IfOk result (λ n. IsPrefixLen n buffer.new) }
    ensures bytes { IfOk result (λ n. IfSome (R.remaining reader.old) (λ xs. take n buffer.new ≡ take (length buffer.new) xs)) }
{
    let mut done = 0;
    // A read takes as many bytes as it gets.
    while done < buffer.len() {
        let n = reader.read(&mut buffer[done..])?;
        if n == 0 {
            break;
        }
        done += n;
    }
    Ok(done)
}

// Writes a text to standard output: the listing of the input of which n bytes were read into the buffer.
fn print_listing(rt: &impl Print, buffer: &[u8], n: usize, text: &[u8]) -> io::Result<()>
    requires { ListsInput buffer.now n text.now }
{
    rt.write_all(text)
}

fn main(rt: HostRuntime) -> io::Result<()> {
    let mut lent = input();
    let n = read_full(&mut rt.stdin(), &mut lent)?;
    let mut out = output();
    let length = list_input(&lent[..n], &mut out);
    print_listing(&rt, &lent, n, &out[..length])
}
