// The desk program: the verdict on the feeds in the current folder, on one line.
#![tactic(auto)]

fn main(rt: HostRuntime) {
    folder::judge(&rt);
}
