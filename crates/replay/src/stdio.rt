// Bytes from the program's input. An end of the input is no error, since lists and cases end there.
use std::io;
use std::io::{ErrorKind, Read};

// Fills what is lent. False where the input ends before.
pub fn taken<R: Read>(input: &mut R, part: &mut [u8]) -> io::Result<bool> {
    match input.read_exact(part) {
        Ok(()) => Ok(true),
        Err(error) => after_end(error),
    }
}

// False where the input has ended; any other error is handed on.
fn after_end(error: io::Error) -> io::Result<bool> {
    if error.kind() == ErrorKind::UnexpectedEof {
        return Ok(false);
    }
    Err(error)
}
