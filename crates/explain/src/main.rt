// Reads a setting and vectors as lines, and prints each vector's key, place and edge, and at the end a table of counts.
#![tactic(auto)]

use explainer::explaining::Explainer;
use lines::chunks::for_each_chunk;
use lines::feeding::feed;
use lines::reader::LineReader;
use std::io::Write;
use std::ops::ControlFlow;

// Prints what the explainer has written.
fn print(rt: &HostRuntime, explainer: &mut Explainer) -> anyhow::Result<()> {
    rt.stdout().write_all(explainer.output().as_bytes())?;
    explainer.clear_output();
    Ok(())
}

fn main(rt: HostRuntime) -> anyhow::Result<()> {
    let mut reader = LineReader::new();
    let mut explainer = Explainer::new(rt.alloc());
    for_each_chunk(
        &mut rt.stdin(),
        |bytes| -> anyhow::Result<ControlFlow<()>> {
            feed(&mut reader, &mut explainer, bytes)?;
            print(&rt, &mut explainer)?;
            if explainer.is_done() {
                return Ok(ControlFlow::Break(()));
            }
            Ok(ControlFlow::Continue(()))
        },
    )?;
    explainer.end(reader.line())?;
    print(&rt, &mut explainer)
}
