// The PGN that a person names.
use numerals::decimal::parse_u64;
use pack::loaded::{Pack, PgnRef};
use pack::protocol::Protocol;

// By its number, or by its id where no PGN of the tree has that number.
pub fn find<'a>(pack: &Pack<'a>, protocol: Protocol, name: &[u8]) -> Option<PgnRef<'a>> {
    if let Some(number) = parse_u64(name) {
        let found = pack
            .pgns(protocol)
            .find(|found| u64::from(found.view.pgn) == number);
        if found.is_some() {
            return found;
        }
    }
    pack.pgns(protocol)
        .find(|found| pack.text(found.view.id) == name)
}
