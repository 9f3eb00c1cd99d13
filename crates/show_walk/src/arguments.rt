// The arguments: the tree, the PGN, and from the third on the readings.
use numerals::decimal::parse_u64;
use pack::protocol::Protocol;
use std::alloc::{AllocFailed, Global};
use std::io;

// An argument longer than this is read as an empty one.
const LONGEST: usize = 4096;

const MOST_READINGS: usize = 256;

#[derive(Drop)]
pub struct Arguments<'a> {
    pub protocol: Protocol,
    pub name: &'a [u8],
    pub readings: Vec<u64>,
}

#[derive(Drop)]
pub enum ArgumentsError {
    // not as the usage has them
    Usage,
    Io(io::Error),
}

impl<T: Drop> From<AllocFailed<T>> for ArgumentsError {
    fn from(failed: AllocFailed<T>) -> ArgumentsError {
        ArgumentsError::Io(io::Error::from(failed))
    }
}

fn bytes(argument: &String) -> &[u8] {
    let bytes = argument.as_bytes();
    if bytes.len() <= LONGEST { bytes } else { b"" }
}

fn protocol(argument: &String) -> Option<Protocol> {
    let tree = u32::try_from(parse_u64(bytes(argument))?).ok()?;
    Protocol::from_number(tree)
}

// The first of them is the program's name.
pub fn read_arguments(alloc: Global, args: &[String]) -> Result<Arguments<'_>, ArgumentsError> {
    let [_, tree, name, others @ ..] = args else {
        return Err(ArgumentsError::Usage);
    };
    if MOST_READINGS < others.len() {
        return Err(ArgumentsError::Usage);
    }
    let protocol = protocol(tree).ok_or(ArgumentsError::Usage)?;
    let mut readings = Vec::new(alloc);
    for reading in others {
        readings.push(parse_u64(bytes(reading)).ok_or(ArgumentsError::Usage)?)?;
    }
    Ok(Arguments {
        protocol,
        name: bytes(name),
        readings,
    })
}
