// The console once more, to be held to the calls and answers of the second program, which ./check makes anew
// (tests/second.py) and nothing stores. Where they have not been made it is run on no line, and writes none.
#![tactic(auto)]

fn main(rt: HostRuntime) {
    talk::answer_lines(&rt, &rt.stderr());
}
