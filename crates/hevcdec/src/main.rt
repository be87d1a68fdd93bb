//! The program `hevcdec`: it decodes H.265 video from standard input to standard output, hashes or lists its pictures,
//! or makes a test stream.
#![tactic(auto)]

use command_line::run;
use hv_base::{Outcome, Status};
use hv_io::{FileSink, FileSource, OpenGate, write_all};
use std::alloc::AllocError;
use std::env;
use std::io::ErrorKind;
use std::process::ExitCode;

fn main(rt: HostRuntime) -> ExitCode {
    let mut err = FileSink::new(rt.stderr());
    let Status(status) = match words(&rt) {
        Ok(words) => {
            let mut src = FileSource::new(rt.stdin());
            let mut out = FileSink::new(rt.stdout());
            run(
                &rt,
                rt.alloc(),
                &words,
                &mut src,
                &mut out,
                &mut err,
                &OpenGate,
            )
        }
        Err(AllocError) => {
            let _ = write_all(&mut err, b"memory\n");
            Outcome::Memory.status()
        }
    };
    ExitCode::from(status)
}

/// The words after the program's name; none where one isn't UTF-8, since such a command line is faulty too.
fn words(rt: &HostRuntime) -> Result<Vec<String>, AllocError> {
    match env::args(rt) {
        Ok(mut args) => {
            let _name = args.next();
            args.collect(rt.alloc())
        }
        Err(error) if error.kind() == ErrorKind::OutOfMemory => Err(AllocError),
        Err(_) => Ok(Vec::new(rt.alloc())),
    }
}
