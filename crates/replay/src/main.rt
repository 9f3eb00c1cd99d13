// Replays the recorded cases of the exported calls: reads them from standard input and writes what each call answers; of `load` the work
// buffer too, of the place text the text buffer, of `walk` the visit buffer, also after a refusal.
// The input has the cases of `load`, of `check`, of the place text and of `walk`, each list as its length and its cases.
#![tactic(auto)]

mod cases;
mod check;
mod load;
mod place;
mod walks;

#[derive(Clone, Copy)]
enum Call {
    Load,
    Check,
    Place,
    Walk,
}

fn next_case(call: Call) {
    match call {
        Call::Load => load::next_case(),
        Call::Check => check::next_case(),
        Call::Place => place::next_case(),
        Call::Walk => walks::next_case(),
    }
}

fn replay(call: Call) {
    for _ in 0..cases::number() {
        next_case(call);
    }
}

fn main() {
    replay(Call::Load);
    replay(Call::Check);
    replay(Call::Place);
    replay(Call::Walk);
}
