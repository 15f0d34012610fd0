//! A flash with spare blocks over a board is a board: the host is that of the inner board.
ghost use Rattle.std.specs.Prelude.{◌≡◌, ◌≤◌, ◌⊎◌, ◌∷◌, [], length, take, IfOk, IfErr, OnOk, OnErr};
ghost use Rattle.pk_base.specs.Mark.{post};
ghost use Rattle.pk_nand.specs.Calls.{Rose, counted, longer};
ghost use Rattle.pk_nand.specs.Operations.{Fetched, FetchFailed, after_post, PostFailed, SentFront};
ghost use Rattle.pk_remap.specs.Logged.{told, HasLogRoom};
ghost use Rattle.pk_remap.specs.Causes.{IsRefused, PostsInner};

use crate::remap::Remap;
use pk_nand::{Board, HostFault, Nand, raise};

impl<B: Board> Board for Remap<B> {
    fn fetch(&mut self, into: &mut [u8]) -> Result<usize, HostFault>
        // As the trait has it.
        ensures ok { IfOk result (λ n. Fetched (⟦<Remap<B> as Nand>⟧.state self.old)
            (⟦<Remap<B> as Nand>⟧.state self.new) n into.new) }
        ensures len { length into.new ≡ length into.old }
        ensures err { OnErr result (FetchFailed (⟦<Remap<B> as Nand>⟧.state self.old)
            (⟦<Remap<B> as Nand>⟧.state self.new)) }
        ensures none_given { IfErr result (λ f. f.given ≡ 0) }

        // What of the inner board makes it fail.
        ensures cause { OnErr result (Rose (B.state self.old.inner).in_faults
            (B.state self.new.inner).in_faults) }
        ensures image { self.new.image ≡ self.old.image }
        ensures work { self.new.work ≡ self.old.work }

        // The inner board did the same, and nothing else.
        ensures inner_ok { IfOk result (λ n. Fetched (B.state self.old.inner)
            (B.state self.new.inner) n into.new) }
        ensures inner_err { OnErr result (FetchFailed (B.state self.old.inner)
            (B.state self.new.inner)) }
    {
        match self.inner.fetch(into) {
            Ok(count) => Ok(count),
            Err(fault) => {
                raise(&mut self.counts.in_faults);
                Err(fault)
            }
        }
    }

    fn post(&mut self, bytes: &[u8]) -> Result<(), HostFault>
        // As the trait has it.
        ensures ok { OnOk result (⟦<Remap<B> as Nand>⟧.state self.new
            ≡ after_post (⟦<Remap<B> as Nand>⟧.state self.old) bytes.now) }
        ensures err { OnErr result (PostFailed (⟦<Remap<B> as Nand>⟧.state self.old)
            (⟦<Remap<B> as Nand>⟧.state self.new) bytes.now) }
        ensures given { IfErr result (λ f. SentFront bytes.now f.given
            (⟦<Remap<B> as Nand>⟧.state self.old).posted
            (⟦<Remap<B> as Nand>⟧.state self.new).posted (⟦<Remap<B> as Nand>⟧.state self.old).trail
            (⟦<Remap<B> as Nand>⟧.state self.new).trail) }

        // What of the inner board, or of the log's room, makes it fail.
        ensures fits { OnOk result (HasLogRoom self.old.log (length bytes.now)) }
        ensures cause { OnErr result (IsRefused self.old.log (length bytes.now)
            (B.state self.old.inner) (B.state self.new.inner)
            ⊎ Rose (B.state self.old.inner).out_faults (B.state self.new.inner).out_faults) }
        ensures image { self.new.image ≡ self.old.image }
        ensures work { self.new.work ≡ self.old.work }

        // The inner board did the same, and nothing else; or no call was made of it.
        ensures inner { PostsInner self.old.log bytes.now (B.state self.old.inner) result
            (B.state self.new.inner) }
    {
        if self.log.has_room(bytes.len()) {
            match self.inner.post(bytes) {
                Ok(()) => {
                    self.log.note_post(bytes);
                    Ok(())
                }
                Err(fault) => {
                    self.post_failed(bytes, fault.given);
                    Err(fault)
                }
            }
        } else {
            raise(&mut self.counts.out_faults);
            Err(HostFault { given: 0 })
        }
    }
}

impl<B: Board> Remap<B> {
    /// Notes the bytes that a post gave that failed, and counts it.
    fn post_failed(&mut self, bytes: &[u8], given: u32)
        // The bytes that left.
        requires within { given ≤ length bytes.now }
        requires room { HasLogRoom self.old.log (length bytes.now) }

        // The trail and the count.
        ensures told { told self.new.log
            ≡ longer (told self.old.log) (post (take given bytes.now) ∷ []) }
        ensures counts { self.new.counts
            ≡ record self.old.counts { out_faults = counted self.old.counts.out_faults } }

        // What is unchanged.
        ensures inner { self.new.inner ≡ self.old.inner }
        ensures image { self.new.image ≡ self.old.image }
        ensures work { self.new.work ≡ self.old.work }
    {
        self.log.note_post(&bytes[..given as usize]);
        raise(&mut self.counts.out_faults);
    }
}
