//! Installs of roots, at most one flash operation each.
ghost use Rattle.std.specs.Prelude.{◌≡◌, ◌<◌, ◌⊎◌, ℕ, length, true, false, Some, MatchBool, OnOk, OnErr, IfOk, IfErr};
ghost use Rattle.pk_base.specs.Shape as spec;
ghost use Rattle.pk_base.specs.Page.{Flash, page_at, SameBehind};
ghost use Rattle.pk_nand.specs.Calls.{IsReady};
ghost use Rattle.pk_nand.specs.declared.types.Fault.TheVariants.{Stopped};
ghost use Rattle.pk_rootfmt.specs.Root.{Root as RootValue, is_root};
ghost use Rattle.pk_rootfmt.specs.Newest.{newest_root};
ghost use Rattle.pk_root.specs.declared.next.Next.TheVariants.{Erase, Program, Again};
ghost use Rattle.pk_root.specs.Installing.{erases_next, programs_next, repeats_next, next_behind as next_behind_of, IsForStep, InstallerOnFlash, Installs, Repeats, ErasesOther, FailsToInstall, FailsToRepeat, FailsToErase};

use crate::next::Next;
use pk_base::Shape;
use pk_model::laws;
use pk_nand::{Fault, Nand};
use pk_pair::{write_first, write_second};
use pk_rootfmt::Root;
use std::alloc::Allocator;
use std::marker::Model;

/// Where the next root goes. Contracts see what the next step does.
#[derive(Drop)]
pub struct Installer {
    next: Next,
}

impl Model for Installer {
    ghost use Rattle.pk_root.specs.declared.next.Next.{Next};

    ghost Value = { Next };

    ghost view = { λ i. i.next };
}

// Erases the root block that does not have this page, and returns its first page. `Stopped` if the
// erase fails.
fn erase_other<B: Nand>(board: &mut B, shape: &Shape, beside: u32) -> Result<u32, Fault>
    requires ready { IsReady (B.state board.old) shape.now }
    requires fits { (top : ℕ × RootValue)
        × InstallerOnFlash shape.now (Erase beside) top (B.state board.old).pages }

    // The other block is Erased.
    ensures erases { IfOk result (λ page.
        ErasesOther shape.now (Erase beside) (B.state board.old) (Program page)
        (B.state board.new)) }
    ensures stopped { IfErr result (λ e. e ≡ Stopped) }
    ensures failed { OnErr result (FailsToErase shape.now (Erase beside) (B.state board.old)
        (B.state board.new)) }

    // Either way the newest root is unchanged, and so is everything after the root blocks.
    ensures behind { SameBehind shape.now (B.state board.old).pages (B.state board.new).pages }
    ensures ready { IsReady (B.state board.new) shape.now }
{
    laws::root();
    shape.known();
    let block = 1 - beside / shape.block_pages();
    match board.erase(block) {
        Ok(()) => Ok(block * shape.block_pages()),
        Err(_) => Err(Fault::Stopped),
    }
}

// Programs the root in this page, the first one of a pair. `Stopped` if the program fails.
fn program_root<B: Nand, A: Allocator>(
    board: &mut B,
    root: &Root<A>,
    page: u32,
    buf: &mut [u8],
) -> Result<(), Fault>
    requires ready { IsReady (B.state board.old) root.now.shape }
    requires grammar { is_root root.now.shape root.now.root ≡ true }
    requires fits { (top : ℕ × RootValue)
        × InstallerOnFlash root.now.shape (Program page) top (B.state board.old).pages
        × (top.1.number < root.now.root.number) }
    requires room { length buf.old ≡ root.now.shape.page_bytes }

    // The root is the newest one.
    ensures installs { OnOk result (Installs root.now.shape root.now.root (Program page)
        (B.state board.old) (Again page) (B.state board.new)) }

    // Or its program failed.
    ensures stopped { IfErr result (λ e. e ≡ Stopped) }
    ensures failed { OnErr result (FailsToInstall root.now.shape root.now.root (Program page)
        (B.state board.old) (B.state board.new)) }

    // Either way everything after the root blocks is unchanged.
    ensures behind { SameBehind root.now.shape (B.state board.old).pages (B.state board.new).pages }
    ensures ready { IsReady (B.state board.new) root.now.shape }
    ensures buffer { length buf.new ≡ length buf.old }
{
    laws::root();
    root.shape().known();
    root.encode(buf);
    match write_first(board, page, buf) {
        Ok(()) => Ok(()),
        Err(fault) => Err(fault),
    }
}

// Programs the root in the page after this one, which has it. `Stopped` if the program fails.
fn repeat_root<B: Nand, A: Allocator>(
    board: &mut B,
    root: &Root<A>,
    page: u32,
    buf: &mut [u8],
) -> Result<(), Fault>
    requires ready { IsReady (B.state board.old) root.now.shape }
    requires grammar { is_root root.now.shape root.now.root ≡ true }
    requires fits { (top : ℕ) × InstallerOnFlash root.now.shape (Again page) (top, root.now.root)
        (B.state board.old).pages }
    requires room { length buf.old ≡ root.now.shape.page_bytes }

    // The root is the newest one still.
    ensures repeats { OnOk result (Repeats root.now.shape root.now.root (Again page)
        (B.state board.old) (next_behind_of root.now.shape page) (B.state board.new)) }

    // Or its program failed.
    ensures stopped { IfErr result (λ e. e ≡ Stopped) }
    ensures failed { OnErr result (FailsToRepeat root.now.shape root.now.root (Again page)
        (B.state board.old) (B.state board.new)) }

    // Either way everything after the root blocks is unchanged.
    ensures behind { SameBehind root.now.shape (B.state board.old).pages (B.state board.new).pages }
    ensures ready { IsReady (B.state board.new) root.now.shape }
    ensures buffer { length buf.new ≡ length buf.old }
{
    laws::root();
    root.shape().known();
    root.encode(buf);
    match write_second(board, page, buf) {
        Ok(()) => Ok(()),
        Err(fault) => Err(fault),
    }
}

// What is next after a root in the pair of this first page.
fn next_behind(shape: &Shape, page: u32) -> Next
    requires { page < spec.root_pages shape.now }
    ensures { result ≡ next_behind_of shape.now page }
{
    shape.known();
    let pages = shape.block_pages();
    if page % pages + 2 < pages {
        Next::Program { page: page + 2 }
    } else {
        Next::Erase { beside: page }
    }
}

impl Installer {
    /// After the newest root, which was found in this page: the first step erases the other root
    /// block, and the next one programs that block's first page.
    pub fn after(page: u32) -> Installer
        ensures value { result ≡ Erase page }
        ensures fits { (shape : spec.Shape) (flash : Flash) (root : RootValue)
            → newest_root shape (page_at flash) ≡ Some (page, root)
            → InstallerOnFlash shape result (page, root) flash }
    {
        Installer {
            next: Next::Erase { beside: page },
        }
    }

    /// Whether the next step erases a root block, and not the one that programs the root.
    pub fn erases(&self) -> bool
        ensures { result ≡ erases_next self.now }
    {
        match self.next {
            Next::Erase { .. } => true,
            Next::Program { .. } => false,
            Next::Again { .. } => false,
        }
    }

    /// Erases the root block that is next, after which the next step programs: the newest root is
    /// unchanged, wherever it is cut, and no page after the root blocks differs. `Stopped` if the
    /// erase fails; the installer is as before then.
    pub fn erase<B: Nand>(&mut self, board: &mut B, shape: &Shape) -> Result<(), Fault>
        requires ready { IsReady (B.state board.old) shape.now }
        requires erases { erases_next self.old ≡ true }
        requires fits { (top : ℕ × RootValue)
            × InstallerOnFlash shape.now self.old top (B.state board.old).pages }

        // The other root block is Erased, and the root is programmed next.
        ensures erased { OnOk result
            (ErasesOther shape.now self.old (B.state board.old) self.new (B.state board.new)) }
        ensures programs_next { OnOk result (programs_next self.new ≡ true) }

        // Or the erase failed.
        ensures stopped { IfErr result (λ e. e ≡ Stopped) }
        ensures failed { OnErr result
            (FailsToErase shape.now self.old (B.state board.old) (B.state board.new)) }
        ensures kept { OnErr result (self.new ≡ self.old) }

        // Either way everything after the root blocks is unchanged.
        ensures behind { SameBehind shape.now (B.state board.old).pages (B.state board.new).pages }
        ensures ready { IsReady (B.state board.new) shape.now }
    {
        match self.next {
            Next::Erase { beside } => match erase_other(board, shape, beside) {
                Ok(page) => {
                    self.next = Next::Program { page };
                    Ok(())
                }
                Err(fault) => Err(fault),
            },
            Next::Program { .. } => unreachable!(),
            Next::Again { .. } => unreachable!(),
        }
    }

    /// Whether the next step programs a root once more, in the second page of its pair.
    pub fn repeats(&self) -> bool
        ensures { result ≡ repeats_next self.now }
    {
        match self.next {
            Next::Erase { .. } => false,
            Next::Program { .. } => false,
            Next::Again { .. } => true,
        }
    }

    /// Programs a root with a greater number than the newest one's in the first page of the pair
    /// that is next: it is the newest root then, and its second program is next. Wherever it is cut
    /// the newest root is the former or this one, and no page after the root blocks differs.
    /// `Stopped` if the program fails; the installer is as before then. `buf` has the size of a
    /// page and is overwritten.
    pub fn program<B: Nand, A: Allocator>(
        &mut self,
        board: &mut B,
        root: &Root<A>,
        buf: &mut [u8],
    ) -> Result<(), Fault>
        requires ready { IsReady (B.state board.old) root.now.shape }
        requires grammar { is_root root.now.shape root.now.root ≡ true }
        requires programs { programs_next self.old ≡ true }
        requires fits { (top : ℕ × RootValue)
            × InstallerOnFlash root.now.shape self.old top (B.state board.old).pages
            × (top.1.number < root.now.root.number) }
        requires room { length buf.old ≡ root.now.shape.page_bytes }

        // The root is the newest one.
        ensures installs { OnOk result (Installs root.now.shape root.now.root self.old
            (B.state board.old) self.new (B.state board.new)) }
        ensures repeats_next { OnOk result (repeats_next self.new ≡ true) }

        // Or its program failed.
        ensures stopped { IfErr result (λ e. e ≡ Stopped) }
        ensures failed { OnErr result (FailsToInstall root.now.shape root.now.root self.old
            (B.state board.old) (B.state board.new)) }
        ensures kept { OnErr result (self.new ≡ self.old) }

        // Either way everything after the root blocks is unchanged.
        ensures behind { SameBehind root.now.shape (B.state board.old).pages
            (B.state board.new).pages }
        ensures ready { IsReady (B.state board.new) root.now.shape }
        ensures buffer { length buf.new ≡ length buf.old }
    {
        match self.next {
            Next::Program { page } => match program_root(board, root, page, buf) {
                Ok(()) => {
                    self.next = Next::Again { page };
                    Ok(())
                }
                Err(fault) => Err(fault),
            },
            Next::Erase { .. } => unreachable!(),
            Next::Again { .. } => unreachable!(),
        }
    }

    /// Programs the newest root once more, in the second page of its pair. Wherever it is cut the
    /// newest root is this one or the one before it, and no page after the root blocks differs.
    /// `Stopped` if the program fails; the installer is as before then. `buf` has the size of a
    /// page and is overwritten.
    pub fn repeat<B: Nand, A: Allocator>(
        &mut self,
        board: &mut B,
        root: &Root<A>,
        buf: &mut [u8],
    ) -> Result<(), Fault>
        requires ready { IsReady (B.state board.old) root.now.shape }
        requires grammar { is_root root.now.shape root.now.root ≡ true }
        requires repeats { repeats_next self.old ≡ true }
        requires fits { (top : ℕ) × InstallerOnFlash root.now.shape self.old (top, root.now.root)
            (B.state board.old).pages }
        requires room { length buf.old ≡ root.now.shape.page_bytes }

        // The root is the newest one still.
        ensures repeats { OnOk result (Repeats root.now.shape root.now.root self.old
            (B.state board.old) self.new (B.state board.new)) }
        ensures whole { OnOk result (repeats_next self.new ≡ false) }

        // Or its program failed.
        ensures stopped { IfErr result (λ e. e ≡ Stopped) }
        ensures failed { OnErr result (FailsToRepeat root.now.shape root.now.root self.old
            (B.state board.old) (B.state board.new)) }
        ensures kept { OnErr result (self.new ≡ self.old) }

        // Either way everything after the root blocks is unchanged.
        ensures behind { SameBehind root.now.shape (B.state board.old).pages
            (B.state board.new).pages }
        ensures ready { IsReady (B.state board.new) root.now.shape }
        ensures buffer { length buf.new ≡ length buf.old }
    {
        match self.next {
            Next::Again { page } => match repeat_root(board, root, page, buf) {
                Ok(()) => {
                    self.next = next_behind(root.shape(), page);
                    Ok(())
                }
                Err(fault) => Err(fault),
            },
            Next::Erase { .. } => unreachable!(),
            Next::Program { .. } => unreachable!(),
        }
    }

    /// One step of the install of a root, by one flash operation: the erase of the other root block
    /// if that is next, the first program of the root, or its second one. True if the second
    /// program was made. The root is the newest one from the first program on. Wherever a step is
    /// cut the newest root is the former or, in a program, this one, and no page after the root
    /// blocks differs. `Stopped` if the operation fails; the installer is as before then. `buf` has
    /// the size of a page and is overwritten.
    pub fn step<B: Nand, A: Allocator>(
        &mut self,
        board: &mut B,
        root: &Root<A>,
        buf: &mut [u8],
    ) -> Result<bool, Fault>
        requires ready { IsReady (B.state board.old) root.now.shape }
        requires grammar { is_root root.now.shape root.now.root ≡ true }
        requires fits { (top : ℕ × RootValue)
            × InstallerOnFlash root.now.shape self.old top (B.state board.old).pages
            × IsForStep self.old top.1 root.now.root }
        requires room { length buf.old ≡ root.now.shape.page_bytes }

        // What was done, and what is next.
        ensures turn { IfOk result (λ done. done ≡ repeats_next self.old) }
        ensures cases { IfOk result (λ done. MatchBool done
            (Repeats root.now.shape root.now.root self.old (B.state board.old) self.new
            (B.state board.new))
            (Installs root.now.shape root.now.root self.old (B.state board.old) self.new
            (B.state board.new)
            ⊎ ErasesOther root.now.shape self.old (B.state board.old) self.new
            (B.state board.new))) }

        // Or the call failed.
        ensures stopped { IfErr result (λ e. e ≡ Stopped) }
        ensures failed { OnErr result (
            FailsToRepeat root.now.shape root.now.root self.old (B.state board.old)
            (B.state board.new)
            ⊎ FailsToInstall root.now.shape root.now.root self.old (B.state board.old)
            (B.state board.new)
            ⊎ FailsToErase root.now.shape self.old (B.state board.old) (B.state board.new)) }
        ensures kept { OnErr result (self.new ≡ self.old) }

        // Either way everything after the root blocks is unchanged.
        ensures behind { SameBehind root.now.shape (B.state board.old).pages
            (B.state board.new).pages }
        ensures ready { IsReady (B.state board.new) root.now.shape }
        ensures buffer { length buf.new ≡ length buf.old }
    {
        match self.next {
            Next::Erase { .. } => match self.erase(board, root.shape()) {
                Ok(()) => Ok(false),
                Err(fault) => Err(fault),
            },
            Next::Program { .. } => match self.program(board, root, buf) {
                Ok(()) => Ok(false),
                Err(fault) => Err(fault),
            },
            Next::Again { .. } => match self.repeat(board, root, buf) {
                Ok(()) => Ok(true),
                Err(fault) => Err(fault),
            },
        }
    }
}
