//! Pages of keys, and all keys.
ghost use Rattle.std.specs.Prelude.{◌≡◌, [], ◌∷◌, ◌++◌, true, OnOk, OnErr, IfOk, IfErr, IfSome};
ghost use Rattle.std.specs.List.{AllByRecursion};
ghost use Rattle.std.specs.Option.{option_copied};
ghost use Rattle.pk_base.specs.Key.{IsBelow};
ghost use Rattle.pk_nvme.specs.Command.{key_or_none};
ghost use Rattle.pk_host.specs.Outcomes.{IsCause, Gives, list_of, Leaves, AreLists, TookSome};
ghost use Rattle.pk_host.specs.Calls.{IsOwnKey};
ghost use Rattle.pk_host.specs.Listing.{Pages, Follows, TellsKeys, ListsAll, listed_by};

use crate::host::{Host, start_bytes};
use crate::key_page::KeyPage;
use crate::port::Port;
use crate::types::HostError;
use pk_base::Key;
use std::alloc::Global;

/// Adds the keys of a page to a list and returns true; false if memory is missing, and then only
/// some were added.
fn add(all: &mut Vec<Key>, page: &KeyPage) -> bool
    ensures { result ≡ true → all.new.items ≡ all.old.items ++ page.now }
{
    let len = page.len();
    for i in 0..len {
        if all.push(page.at(i).copy()).is_err() {
            return false;
        }
    }
    true
}

impl Host {
    /// Fills a page with the keys after this one, from the first if there is none, as many as one
    /// List of 65,536 bytes gives; false exactly if no key follows, with an empty page. `Refused`
    /// if a read failed, `Port` if the port did.
    pub fn list_page<P: Port>(
        &mut self,
        port: &mut P,
        from: Option<&Key>,
        page: &mut KeyPage,
    ) -> Result<bool, HostError>
        requires own { IfSome (option_copied from) IsOwnKey }

        // What is answered, and why nothing is.
        ensures gives { Gives (P.state port.old) (P.state port.new)
            (list_of (key_or_none (option_copied from.entry))) (listed_by page.new) result }
        ensures causes { IfErr result (λ e. IsCause (P.state port.old) (P.state port.new)
            (listed_by []) e) }

        // The keys.
        ensures pages { OnOk result
            (Pages (P.state port.old) (key_or_none (option_copied from.entry)) page.new) }
        ensures follows { IfOk result (λ more.
            Follows (P.state port.old) (key_or_none (option_copied from.entry)) more) }
        ensures known { OnOk result (TellsKeys (P.state port.old)) }
        ensures above { AllByRecursion (IsBelow (key_or_none (option_copied from.entry))) page.new }
        ensures empty { OnErr result (page.new ≡ []) }

        // The port.
        ensures leaves { Leaves (P.state port.old) (P.state port.new) (λ m. m) }
        ensures took { P.took port.old (list_of (key_or_none (option_copied from.entry)) ∷ [])
            port.new }
    {
        // so that its length is known
        let _ = start_bytes(from);
        self.page_from(port, from, page)
    }

    /// Every key, rising. `Refused` if a read failed, `Port` if the port did, `Memory` if it is
    /// missing for the keys.
    pub fn list_all<P: Port>(&mut self, alloc: Global, port: &mut P) -> Result<Vec<Key>, HostError>
        ensures lists { IfOk result (λ all. ListsAll (P.state port.old) all.items) }
        ensures causes { IfErr result (λ e. IsCause (P.state port.old) (P.state port.new)
            (listed_by []) e) }
        ensures leaves { Leaves (P.state port.old) (P.state port.new) (λ m. m) }
        ensures took { TookSome P.took AreLists port.old port.new }
    {
        let mut page = match KeyPage::new(alloc) {
            Ok(page) => page,
            Err(_) => return Err(HostError::Memory),
        };
        let mut all = Vec::new(alloc);
        // It ends with the first page that is empty; the count serves as a measure, and no map has
        // that many pages.
        for _ in 0..u64::MAX {
            match self.list_page(port, all.last(), &mut page) {
                Err(error) => return Err(error),
                Ok(false) => return Ok(all),
                Ok(true) => {
                    page.known();
                    if !add(&mut all, &page) {
                        return Err(HostError::Memory);
                    }
                }
            }
        }
        Err(HostError::Memory)
    }
}
