// Prints the cuts of the record file that stands on standard input: `file code C place P at B` for a refused file, and else each term's lines in
// order. It reads one byte more than the longest file has and no further.

#![tactic(auto)]

ghost use Rattle.std.specs.Prelude.{◌≡◌, ◌<◌, ◌≤◌, length};
ghost use Rattle.file.specs.Contents.{count_in};

use file::RecordFile;
use reply::Reply;
use report::TooShort;
use std::io::Read;

// One byte more than the longest file has.
const INPUT_ROOM: usize = 65537;

// Writes out a text that stands at the front of a buffer, if it can be written.
fn print_text(rt: &impl Print, w: Result<usize, TooShort>, text: &[u8]) -> Option<()> {
    let n = w.ok()?;
    rt.write_all(text.get(..n)?).ok()
}

// The lines of entry i.
fn print_term(rt: &impl Print, file: &RecordFile, i: usize) -> Option<()>
    requires { i < count_in file.now.bytes.now }
{
    let mut text = [0u8; report::TEXT_ROOM];
    let w = report::term_lines(file, i, &mut text);
    print_text(rt, w, &text)
}

// The lines of all terms, to the first that cannot be written.
fn print_terms(rt: &impl Print, file: &RecordFile) -> Option<()> {
    for i in 0..file.count() {
        print_term(rt, file, i)?;
    }
    Some(())
}

// The line of a refused file, or the lines of all terms.
fn print_file(rt: &impl Print, bytes: &[u8]) -> Option<()> {
    match file::read_file(bytes) {
        Ok(file) => print_terms(rt, &file),
        Err(refusal) => {
            let mut line = [0u8; report::LINE_ROOM];
            let w = report::file_line(Reply::from(refusal), &mut line);
            print_text(rt, w, &line)
        }
    }
}

// Reads until the buffer is full, the input ends or a read fails, and answers how many bytes stand at its front. Each turn goes on by what its read brings.
fn read_full(input: &mut impl Read, buf: &mut [u8]) -> usize
    ensures { result ≤ length buf.new }
{
    let mut done = 0;
    while done < buf.len() {
        let n = input.read(&mut buf[done..]).unwrap_or(0);
        if n == 0 {
            break;
        }
        done += n;
    }
    done
}

fn main(rt: HostRuntime) {
    let mut input = [0u8; INPUT_ROOM];
    let n = read_full(&mut rt.stdin(), &mut input);
    print_file(&rt, &input[..n]);
}
