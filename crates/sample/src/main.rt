// The desk program over a sound set of all eight files.
#![tactic(auto)]

fn main(rt: HostRuntime) {
    folder::judge(&rt);
}
