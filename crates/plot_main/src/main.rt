// The console, which ./plot runs. It is held to stdin and stdout beside src/, where every example of the documents and
// of the help stands (tests/examples.py).
#![tactic(auto)]

fn main(rt: HostRuntime) {
    talk::answer_lines(&rt, &rt.stderr());
}
