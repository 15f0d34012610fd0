//! The trait of a drive over the board that it is handed.
ghost use Rattle.std.specs.Prelude.{◌≡◌, ◌≤◌, ℕ, [], length, min, true, false, nat_le, is_err, Some, Option, Ok};
ghost use Rattle.pk_base.specs.Shape.{Shape};
ghost use Rattle.pk_base.specs.Page.{Flash};
ghost use Rattle.pk_base.specs.Map.{Map, live};
ghost use Rattle.pk_nvme.specs.Seen.{command_of};
ghost use Rattle.pk_nand.specs.BoardState.{shape_of};
ghost use Rattle.pk_model.specs.Crashes.{background, commit};
ghost use Rattle.pk_call.specs.Sight.{Sight, in_space_at, live_of_all, map_of};
ghost use Rattle.pk_model.specs.Spaces.{terms_at};
ghost use Rattle.pk_model.specs.Wear.{root_number};
ghost use Rattle.pk_model.specs.declared.wear.TheConstants.{WORN_FROM};
ghost use Rattle.pk_call.specs.Answering.{AnswersCommand, CountsCalls, SettlesBackground, ShowsItself, WaitsForNothing};
ghost use Rattle.pk_call.specs.Call.{CallGoes, command_on};
ghost use Rattle.pk_call.specs.Commit.{AnswersCommit, CountsPrograms, ShowsCommit};
ghost use Rattle.pk_call.specs.Drive.{CountsMap};
ghost use Rattle.pk_call.specs.Running.{DriveRuns, CanServe, CanExecute, PassesValue, HasRoomForData, LeavesDrive, FoundAfterCrash};
ghost use Rattle.pk_call.specs.Seen.{stopped_by, counts_of, in_space_of};
ghost use Rattle.pk_call.specs.Steady.{IsSteady};
ghost use Rattle.pk_call.specs.Tick.{AnswersStep, CountsStep, SettlesStep, ShowsStep};

use pk_call::{Counts, Outcome, Ticked};
use pk_nand::{Nand, NandFault};
use pk_nvme::Request;

/// A drive. No call takes memory.
pub trait Engine {
    /// What contracts see of it.
    ghost sight: { Self → Sight };

    /// The board has the shape and the pages with which opening, or the last call, ended.
    ghost agrees: { Self → Option Shape → Flash → Type 0 };

    /// Executes one command. A Store's value is passed if it is not too large, and no other bytes
    /// are.
    fn exec<B: Nand>(
        &mut self,
        board: &mut B,
        request: &Request,
        value: &[u8],
        into: &mut [u8],
    ) -> Outcome
        // The drive and the board, what is passed, and the buffer for data.
        requires serves { CanExecute (agrees self.old) (sight self.old) (B.state board.old)
            request.now.opcode }
        requires passes { PassesValue (shape_of (B.state board.old)) request.now.opcode
            request.now.size value.now }
        requires room { HasRoomForData (shape_of (B.state board.old)) into.old }

        // The drive and the board after it, what it answers, with what a crash within it finds, and
        // what that is if it stopped the drive.
        ensures leaves { LeavesDrive (agrees self.new) (sight self.new) (B.state board.old)
            (B.state board.new) result.stopped }
        ensures answers { AnswersCommand (B.state board.old) (B.state board.new) (sight self.old)
            (sight self.new) request.now value.now result into.old into.new }
        ensures cuts_stopped { result.stopped ≡ true → CallGoes (B.state board.old)
            (B.state board.new) (sight self.old) (command_on (B.state board.old)
            (command_of request.now value.now)) }

        // What is counted, how the background settles, what is seen of the drive, and what waits
        // for nothing.
        ensures counts { CountsCalls (B.state board.old) (B.state board.new) request.now result }
        ensures settles { SettlesBackground (B.state board.old) (B.state board.new)
            (sight self.old) (sight self.new) request.now result }
        ensures shows { ShowsItself (B.state board.old) (B.state board.new) (sight self.old)
            (sight self.new) request.now value.now result }
        ensures quiet { WaitsForNothing (B.state board.old) (B.state board.new) (sight self.old)
            request.now value.now result };

    /// Commits the pending entries by the two programs of a commit; if there are none it does
    /// nothing. A failure stops the drive.
    fn commit<B: Nand>(&mut self, board: &mut B) -> Result<(), NandFault>
        requires runs { DriveRuns (agrees self.old) (sight self.old) (B.state board.old) }
        ensures leaves { LeavesDrive (agrees self.new) (sight self.new) (B.state board.old)
            (B.state board.new) (is_err result) }
        ensures answers { AnswersCommit (B.state board.old) (B.state board.new) (sight self.old)
            (sight self.new) (is_err result) }
        ensures found { FoundAfterCrash (B.state board.old) (B.state board.new) (sight self.old)
            commit (is_err result) }
        ensures counts { CountsPrograms (B.state board.old) (B.state board.new) (sight self.old)
            (is_err result) }
        ensures shows { ShowsCommit (B.state board.old) (B.state board.new) (sight self.old)
            (sight self.new) (is_err result) };

    /// Makes one background step, with at most one flash operation.
    fn tick<B: Nand>(&mut self, board: &mut B) -> Ticked
        // The drive and the board, and no entry is pending.
        requires serves { CanServe (agrees self.old) (sight self.old) (B.state board.old) }
        requires none { (sight self.old).pending ≡ [] }

        // The drive and the board after it, what it answers, and what a crash within it finds.
        ensures leaves { LeavesDrive (agrees self.new) (sight self.new) (B.state board.old)
            (B.state board.new) (stopped_by result) }
        ensures answers { AnswersStep (B.state board.old) (B.state board.new) (sight self.old)
            (sight self.new) result }
        ensures found { FoundAfterCrash (B.state board.old) (B.state board.new) (sight self.old)
            background (stopped_by result) }

        // What is counted, how the background settles, and what is seen of the drive.
        ensures counts { CountsStep (B.state board.old) (B.state board.new) result }
        ensures settles { SettlesStep (B.state board.old) (B.state board.new) (sight self.old)
            (sight self.new) result }
        ensures shows { ShowsStep (B.state board.old) (B.state board.new) (sight self.old)
            (sight self.new) result };

    /// How many entries are pending.
    fn pending(&self) -> u32
        ensures { result ≡ length (sight self.now).pending };

    /// A program or an erase failed.
    fn is_stopped(&self) -> bool
        ensures { result ≡ (sight self.now).stopped };

    /// The numbers of roots are used up: on a drive that is not stopped, the newest root's number is at least `WORN_FROM`.
    fn is_worn(&self) -> bool
        ensures { (shape : Shape) (flash : Flash) → agrees self.now (Some shape) flash
            → (sight self.now).stopped ≡ false
            → result ≡ nat_le WORN_FROM (root_number shape flash) };

    /// How many namespaces the drive has.
    fn spaces(&self) -> u8
        ensures number { result ≡ length (sight self.now).spaces }
        ensures some { 1 ≤ result };

    /// The numbers of a Report in this namespace. On a drive that is not stopped the first five are
    /// those of its part of the map, of its limit and of the frames; of the others those of the
    /// buffers and of the runs are those of the flash, those of blocks are bounds, and of the
    /// commits of the epoch nothing is said.
    fn counts(&self, space: u8) -> Counts
        requires { 1 ≤ space × space ≤ length (sight self.now).spaces }

        ensures numbers { (counts_of result ≡ (sight self.now).counts)
            × (in_space_of result ≡ in_space_at (sight self.now).spaces space) }
        ensures map { (shape : Shape) (flash : Flash) (m : Map) → agrees self.now (Some shape) flash
            → (sight self.now).stopped ≡ false → map_of shape flash (sight self.now) ≡ Ok m
            → CountsMap shape (terms_at shape flash (sight self.now).counts.frames) space m
            (in_space_at (sight self.now).spaces space) (sight self.now).counts }
        ensures steady { (shape : Shape) (flash : Flash) (m : Map)
            → agrees self.now (Some shape) flash → (sight self.now).stopped ≡ false
            → map_of shape flash (sight self.now) ≡ Ok m → IsSteady shape flash (sight self.now) };

    /// The live pages of its map, on a drive that is not stopped: those of all namespaces together,
    /// no more than a `u32` holds.
    fn live_pages(&self) -> u32
        ensures number { result ≡ min (live_of_all (sight self.now).spaces) 4294967295 }
        ensures map { (shape : Shape) (flash : Flash) (m : Map) → agrees self.now (Some shape) flash
            → (sight self.now).stopped ≡ false → map_of shape flash (sight self.now) ≡ Ok m
            → result ≡ live shape m };
}
