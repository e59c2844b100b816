// The program that ./sweep runs. Its arguments, its input and what it must write, beside src/, are those of the example
// of docs/SWEEP.md.
#![tactic(auto)]

fn main(rt: HostRuntime) {
    stream::file_directions(&rt, &rt.stderr());
}
