// A case: pack, length of the work buffer, place, tree, item, length of the text buffer, which holds dots before the call.
// What the call takes and answers is numbers: the C interface.
use crate::cases::{count, number, print_refused, read_pack, words};

fn replay(pack: &[u8], work: &mut [u32], place: u32, tree: u32, item: u32, text: &mut [u8]) {
    let mut answer = [0u64; 1];
    let refused = exports::sarwymp_place_text(pack, work, place, tree, item, text, &mut answer);
    if refused != 0 {
        print_refused(refused, answer[0]);
    }
    words(b"text ");
    words(text);
    words(b"\n");
}

// What follows the length of the pack.
fn rest_of_case(pack: &mut [u8], work: &mut [u32], text: &mut [u8]) {
    read_pack(pack);
    let m = count(work.len());
    let place = number();
    let tree = number();
    let item = number();
    let k = count(text.len());
    replay(pack, &mut work[..m], place, tree, item, &mut text[..k]);
}

// A case in the first bytes and numbers of three buffers.
fn one_case(pack: &mut [u8], work: &mut [u32], text: &mut [u8]) {
    let n = count(pack.len());
    rest_of_case(&mut pack[..n], work, text);
}

pub fn next_case() {
    let mut pack = [0u8; 32_768];
    let mut work = [0u32; 1024];
    let mut text = [46u8; 4096];
    one_case(&mut pack, &mut work, &mut text);
}
