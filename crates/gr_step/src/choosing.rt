//! What a goroutine may choose (Go: Select statements).

ghost use Rattle.std.specs.Prelude.{◌≡◌, IfOk, MatchOption};
ghost use Rattle.std.specs.List.{list_any};
ghost use Rattle.gr_rules.specs.Tells.{ready_clauses};
ghost use Rattle.gr_refine.specs.Partners.{can_send as may_send, can_receive as may_receive, can_proceed as may_proceed};
ghost use Rattle.gr_goros.specs.Views.{communication_of, communications_of};
ghost use Rattle.gr_step.specs.Choices.{Selects, IsAtSelect, HasNoChoice, ready_from};
ghost use Rattle.gr_step.specs.Guard.{IsUp, Needs};
ghost use Rattle.gr_record.specs.Listings.{program_in, state_in, IsCoded};
ghost use Rattle.gr_step.specs.Objects.{contents_in};
ghost use Rattle.gr_record.specs.Running.{Running};

use crate::objects::Objects;
use gr_base::{GoName, NoMemory};
use gr_channels::Channel;
use gr_goros::{Clause, Goroutine, Need};
use gr_record::Listing;

/// Whether a send on the channel can proceed, which it can on a closed channel: it is a fault.
pub(crate) fn can_send(channel: &Channel) -> bool
    ensures { result ≡ may_send channel.now.content }
{
    channel.is_closed()
        || channel.receiver(0).is_some()
        || channel.len() < channel.capacity() as usize
}

/// Whether a receive from the channel can proceed.
pub(crate) fn can_receive(channel: &Channel) -> bool
    ensures { result ≡ may_receive channel.now.content }
{
    channel.is_closed() || channel.sender(0).is_some() || !channel.is_empty()
}

impl Objects {
    /// Whether the communication of a clause can proceed; on nil it never can.
    pub(crate) fn can_proceed(&self, clause: &Clause) -> bool
        ensures { result ≡ may_proceed (contents_in self.now) (communication_of clause.now) }
    {
        match clause {
            Clause::Send {
                channel: Some(name),
                ..
            } => self.channels.get(name).is_some_and(can_send),
            Clause::Receive {
                channel: Some(name),
                ..
            } => self.channels.get(name).is_some_and(can_receive),
            _ => false,
        }
    }

    /// Whether any of the clauses can proceed.
    pub(crate) fn any_can_proceed(&self, clauses: &[Clause]) -> bool
        ensures { result ≡ list_any (may_proceed (contents_in self.now)) (communications_of clauses.now) }
    {
        for clause in clauses {
            if self.can_proceed(clause) {
                return true;
            }
        }
        false
    }

    /// The numbers of the clauses that can proceed, counted from 1.
    fn ready_numbers(&self, clauses: &[Clause]) -> Result<Vec<u32>, NoMemory>
        ensures { IfOk result (λ numbers. numbers.items ≡ ready_from (contents_in self.now) 1 (communications_of clauses.now)) }
    {
        let mut numbers = Vec::new(self.alloc);
        for (place, clause) in clauses.iter().enumerate() {
            if self.can_proceed(clause) {
                let Ok(number) = u32::try_from(place + 1) else {
                    return Err(NoMemory);
                };
                numbers.push(number)?;
            }
        }
        Ok(numbers)
    }

    /// What the next step of a goroutine asks for, where it is ready, in a program that runs.
    pub fn need(&self, listing: &Listing, go: &GoName) -> Result<Option<Need>, NoMemory>
        requires coded { IsCoded listing.now }
        requires running { Running (program_in listing.now) (contents_in self.now) }
        ensures { IfOk result (λ o. MatchOption o (¬ IsUp (contents_in self.now) go.now)
            (λ need. Needs (program_in listing.now) (contents_in self.now) go.now need)) }
    {
        let Ok(ready) = self.ready_goroutine(go) else {
            return Ok(None);
        };
        let need = ready.goroutine.next_need(self.alloc, &listing.code)?;
        Ok(Some(need))
    }

    /// The goroutine of a name, where it is ready at a select, in a program that runs.
    fn at_select(&self, listing: &Listing, go: &GoName) -> Option<&Goroutine>
        requires coded { IsCoded listing.now }
        requires running { Running (program_in listing.now) (contents_in self.now) }
        ensures { MatchOption result (HasNoChoice (program_in listing.now) (contents_in self.now) go.now)
            (λ g. IsAtSelect (program_in listing.now) (contents_in self.now) go.now g.now.content) }
    {
        let Ok(ready) = self.ready_goroutine(go) else {
            return None;
        };
        if !ready.goroutine.is_select(&listing.code) {
            return None;
        }
        Some(ready.goroutine)
    }

    /// The clauses of the select at which a goroutine is ready, if it is, in a program that runs.
    fn clauses_at(&self, listing: &Listing, go: &GoName) -> Result<Option<Vec<Clause>>, NoMemory>
        requires coded { IsCoded listing.now }
        requires running { Running (program_in listing.now) (contents_in self.now) }
        ensures { IfOk result (λ o. MatchOption o (HasNoChoice (program_in listing.now) (contents_in self.now) go.now)
            (λ clauses. Selects (program_in listing.now) (contents_in self.now) go.now (communications_of clauses.items))) }
    {
        let Some(goroutine) = self.at_select(listing, go) else {
            return Ok(None);
        };
        match goroutine.next_need(self.alloc, &listing.code)? {
            Need::Select { clauses } => Ok(Some(clauses)),
            _ => Ok(None),
        }
    }

    /// The clauses that a goroutine may pick, by their numbers from 1: none, where it is not ready at a select.
    pub fn ready_cases(&self, listing: &Listing, go: &GoName) -> Result<Vec<u32>, NoMemory>
        requires coded { IsCoded listing.now }
        requires running { Running (program_in listing.now) (contents_in self.now) }
        ensures { IfOk result (λ cases. cases.items
            ≡ ready_clauses (program_in listing.now) (state_in (program_in listing.now) (contents_in self.now)) go.now) }
    {
        match self.clauses_at(listing, go)? {
            Some(clauses) => self.ready_numbers(&clauses),
            None => Ok(Vec::new(self.alloc)),
        }
    }
}
