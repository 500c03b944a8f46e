// Runs many sessions of the explain program, parted by form feeds, for the gate.
#![tactic(auto)]

use explainer::explaining::Explainer;
use lines::chunks::for_each_chunk;
use lines::feeding::feed;
use lines::reader::LineReader;
use std::alloc::Global;
use std::io::Write;
use std::ops::ControlFlow;

const SEPARATOR: u8 = b'\x0c';

// The line that has not ended, and what the lines of the session before it have made.
#[derive(Drop)]
struct Run {
    reader: LineReader,
    explainer: Explainer,
}

impl Run {
    fn new(alloc: Global) -> Run {
        Run {
            reader: LineReader::new(),
            explainer: Explainer::new(alloc),
        }
    }

    // Ends a session, and prints what it has written.
    fn end(&mut self, rt: &HostRuntime) -> anyhow::Result<()> {
        self.explainer.end(self.reader.line())?;
        rt.stdout().write_all(self.explainer.output().as_bytes())?;
        Ok(())
    }

    // Takes in bytes, and starts the next session after each separator.
    fn take(&mut self, rt: &HostRuntime, bytes: &[u8]) -> anyhow::Result<ControlFlow<()>> {
        let mut parts = bytes.split(|b| *b == SEPARATOR);
        if let Some(part) = parts.next() {
            feed(&mut self.reader, &mut self.explainer, part)?;
        }
        for part in parts {
            self.end(rt)?;
            *self = Run::new(rt.alloc());
            feed(&mut self.reader, &mut self.explainer, part)?;
        }
        Ok(ControlFlow::Continue(()))
    }
}

fn main(rt: HostRuntime) -> anyhow::Result<()> {
    let mut run = Run::new(rt.alloc());
    for_each_chunk(&mut rt.stdin(), |bytes| run.take(&rt, bytes))?;
    run.end(&rt)
}
