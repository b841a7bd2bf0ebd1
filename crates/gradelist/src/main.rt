// Lists standard input on standard output. The work is the library's: here a failure is told on standard error.
#![tactic(auto)]

use listing::Failure;
use std::io::{self, ErrorKind, Read};
use std::process::ExitCode;

// Says on standard error what has failed, and why.
fn tell(rt: &impl Eprint, what: &str, error: io::Error) {
    let _ = eprintln!(rt; "gradelist: {what}: {error}");
}

// A reader whose failure is told as it fails, before a line that it cuts off is answered. An interrupted read is no failure: it is made again.
#[derive(Drop)]
struct Told<'a, R, E> {
    reader: R,
    rt: &'a E,
    // Whether a read was made.
    begun: bool,
}

impl<'a, R: Read, E: Eprint> Read for Told<'a, R, E> {
    ghost remaining = { λ told. R.remaining told.reader };

    fn read(&mut self, piece: &mut [u8]) -> io::Result<usize> {
        self.begun = true;
        let read = self.reader.read(piece);
        if let Err(error) = read {
            if error.kind() != ErrorKind::Interrupted {
                tell(self.rt, "standard input", error);
            }
        }
        read
    }
}

fn main(rt: HostRuntime) -> ExitCode {
    let mut input = Told {
        reader: rt.stdin(),
        rt: &rt,
        begun: false,
    };
    match listing::list(&mut input, &mut rt.stdout()) {
        Ok(()) => return ExitCode::SUCCESS,
        Err(Failure::Read(_)) => {}
        Err(Failure::Write(error)) => {
            tell(&rt, "standard output", error);
            // Where the header was not written, a first read is made all the same, so that its failure is told too.
            if !input.begun {
                let _ = input.read(&mut [0; 65536]);
            }
        }
    }
    ExitCode::FAILURE
}
