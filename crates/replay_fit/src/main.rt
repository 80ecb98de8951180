// Replays the oracle's single-step fits.
#![tactic(auto)]

fn main(rt: HostRuntime) {
    replay_calls::replay(&mut rt.stdin(), &mut rt.stdout(), false);
}
