// The program that ./cells runs. Its input and what it must write, beside src/, are those of an example of
// docs/CELLS.md: 1001 and 10012.
#![tactic(auto)]

fn main(rt: HostRuntime) {
    cell_files::answer_input(&rt, &rt.stderr());
}
