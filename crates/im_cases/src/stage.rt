//! One run through the top call, over doubles.

use crate::comparing::{
    compare_calls, compare_count, compare_end, compare_files, compare_kept, compare_lines,
};
use crate::doubles::{Feed, Narrow};
use crate::feeding::input_of;
use crate::given::{clock, failing, hash, served, words};
use crate::images::{change_all, disk_of, files_of};
use crate::lines::Run;
use crate::shown::Place;
use crate::stop::Stop;
use crate::wanting::end_of;
use im_app::top::top;
use im_disk::memory::MemDisk;
use im_edge::fused_keeper::FusedKeeper;
use im_edge::gate::OpenGate;
use im_edge::keeper::{Keeper, MemKeeper};
use im_sqlengine::engine::Engine;
use im_status::status::{Done, Status};
use std::alloc::{AllocError, Global};
use std::mem;
use std::sync::Wait;
use std::thread::Threads;

/// What a run left.
#[derive(Drop)]
pub struct Stage {
    disk: MemDisk,
    keeper: FusedKeeper<MemKeeper>,
    written: Vec<u8>,
    // The exit status, and behind a blank what was said on standard error.
    end: Vec<u8>,
    // How many blocks were left in the source.
    left: u64,
}

impl Stage {
    /// An empty disk and an empty keeper.
    pub fn new(alloc: Global) -> Result<Self, AllocError> {
        Ok(Stage {
            disk: MemDisk::new(alloc, Vec::new(alloc))?,
            keeper: FusedKeeper::new(MemKeeper::new(alloc), u64::MAX),
            written: Vec::new(alloc),
            end: Vec::new(alloc),
            left: 0,
        })
    }

    /// Plays a run, and stops where it can't be done, or at the first difference between what is wanted and what came.
    pub fn play<R: Threads + Wait + Sync>(&mut self, rt: &R, run: Run) -> Result<(), Stop> {
        keep(run, &mut self.keeper)?;
        let disk = self.first_disk(run)?;
        let status = self.run_over(rt, run, disk)?;
        self.leave_end(run.alloc, status)?;
        self.compare(run)
    }

    // The disk that a run begins with.
    fn first_disk(&self, run: Run) -> Result<MemDisk, Stop> {
        let mut files = files_of(run.alloc, &self.disk, run.last("lose").is_some())?;
        change_all(run, &mut files)?;
        Ok(disk_of(run.alloc, files, failing(run)?)?)
    }

    // Runs the top call over this disk, and leaves what it left.
    fn run_over<R: Threads + Wait + Sync>(
        &mut self,
        rt: &R,
        run: Run,
        disk: MemDisk,
    ) -> Result<Status, Stop> {
        let input = input_of(run, &self.written)?;
        let words = words(run)?;
        Ok(self.run(rt, run, &words, &input, disk))
    }

    // Runs the top call, and leaves what it left.
    fn run<R: Threads + Wait + Sync>(
        &mut self,
        rt: &R,
        run: Run,
        words: &[String],
        input: &[u8],
        disk: MemDisk,
    ) -> Status {
        let blocks = run.number("blocks").unwrap_or(0);
        let mut source = Feed::new(input, blocks, run.last("source").is_some());
        let mut sink = Narrow::new(Vec::new(run.alloc), run.number("room"));
        let Done { status, disk, .. } = top(
            rt,
            run.alloc,
            words,
            &hash(run),
            &Engine,
            &mut source,
            &mut sink,
            disk,
            &mut self.keeper,
            clock(run),
            &OpenGate,
        );
        let Narrow { written, .. } = sink;
        drop(mem::replace(&mut self.disk, disk));
        drop(mem::replace(&mut self.written, written));
        self.left = source.blocks_left();
        status
    }

    // Leaves the exit status, and what was said.
    fn leave_end(&mut self, alloc: Global, status: Status) -> Result<(), AllocError> {
        let told = status.told(alloc)?;
        let line = told.strip_suffix(b"\n").unwrap_or(&told);
        self.end = end_of(alloc, status.code(), line)?;
        Ok(())
    }

    // Compares all that it left with what is wanted.
    fn compare(&mut self, run: Run) -> Result<(), Stop> {
        compare_end(run, &self.end)?;
        compare_lines(run.alloc, "written line", &run.texts("<")?, &self.written)?;
        compare_kept(run, &self.keeper.inner.lines(run.alloc)?)?;
        compare_calls(run, &self.disk)?;
        compare_files(run, &self.disk)?;
        let place = Place::Whole("blocks left");
        compare_count(run.alloc, place, run.number("left"), self.left)
    }
}

// Has the keeper keep the lines that it is to hold more, and tells it how many calls it serves.
fn keep(run: Run, keeper: &mut FusedKeeper<MemKeeper>) -> Result<(), Stop> {
    for line in run.lines {
        if line.mark == "keep" {
            keeper.inner.append(&run.scope(*line).text(line.rest)?)?;
        }
    }
    keeper.calls_left = served(run);
    Ok(())
}
