// Where a script is read from.
use std::fs::File;
use std::io;
use std::io::{Read, Stdin};

// Standard input, or a file that was named.
#[derive(Drop)]
pub enum Source {
    Input(Stdin),
    Named(File),
}

impl Read for Source {
    fn read(&mut self, buf: &mut [u8]) -> io::Result<usize> {
        match self {
            Source::Input(input) => input.read(buf),
            Source::Named(file) => file.read(buf),
        }
    }
}
