//! How each token is taken into the tables, or which limit it passes first.

ghost use Rattle.std.specs.Prelude.{OnOk, IsErrOf};
ghost use Rattle.timbuk_text.specs.Store.{store_of, IsFew};
ghost use Rattle.timbuk_text.specs.Taking.{IsReady, Takes, Passes, limit_of};

use crate::error::Counted;
use crate::table::Action;
use crate::tables::{MOST_RANK, Stop, Tables, check_name, rank_of};
use ta_model::Name;

impl Tables {
    fn take_title(&mut self, word: &[u8]) -> Result<(), Stop>
        requires ready { IsReady Action.Title (store_of self.old) word.now }
        requires few { IsFew (store_of self.old) }
        ensures ok { OnOk result (Takes Action.Title word.now (store_of self.old) (store_of self.new)) }
        ensures stop { (which : Counted) → IsErrOf result (Stop.Limit which) → Passes Action.Title word.now (store_of self.old) (limit_of which) }
    {
        check_name(word)?;
        self.title = Some(Name::known(self.allocator(), word)?);
        Ok(())
    }

    fn take_op_name(&mut self, word: &[u8]) -> Result<(), Stop>
        requires ready { IsReady Action.OpName (store_of self.old) word.now }
        requires few { IsFew (store_of self.old) }
        ensures ok { OnOk result (Takes Action.OpName word.now (store_of self.old) (store_of self.new)) }
        ensures stop { (which : Counted) → IsErrOf result (Stop.Limit which) → Passes Action.OpName word.now (store_of self.old) (limit_of which) }
    {
        check_name(word)?;
        self.set_head(word)
    }

    fn take_op_rank(&mut self, digits: &[u8]) -> Result<(), Stop>
        requires ready { IsReady Action.OpRank (store_of self.old) digits.now }
        requires few { IsFew (store_of self.old) }
        ensures ok { OnOk result (Takes Action.OpRank digits.now (store_of self.old) (store_of self.new)) }
        ensures stop { (which : Counted) → IsErrOf result (Stop.Limit which) → Passes Action.OpRank digits.now (store_of self.old) (limit_of which) }
    {
        let rank = rank_of(digits);
        if rank as usize > MOST_RANK {
            return Err(Stop::Limit(Counted::Rank));
        }
        self.put_symbol(rank)?;
        Ok(())
    }

    fn take_state(&mut self, word: &[u8]) -> Result<(), Stop>
        requires ready { IsReady Action.State (store_of self.old) word.now }
        requires few { IsFew (store_of self.old) }
        ensures ok { OnOk result (Takes Action.State word.now (store_of self.old) (store_of self.new)) }
        ensures stop { (which : Counted) → IsErrOf result (Stop.Limit which) → Passes Action.State word.now (store_of self.old) (limit_of which) }
    {
        check_name(word)?;
        self.put_state(word)?;
        Ok(())
    }

    fn take_final(&mut self, word: &[u8]) -> Result<(), Stop>
        requires ready { IsReady Action.Final (store_of self.old) word.now }
        requires few { IsFew (store_of self.old) }
        ensures ok { OnOk result (Takes Action.Final word.now (store_of self.old) (store_of self.new)) }
        ensures stop { (which : Counted) → IsErrOf result (Stop.Limit which) → Passes Action.Final word.now (store_of self.old) (limit_of which) }
    {
        check_name(word)?;
        let place = self.put_state(word)?;
        self.finals.insert(place)?;
        Ok(())
    }

    fn take_head(&mut self, word: &[u8]) -> Result<(), Stop>
        requires ready { IsReady Action.Head (store_of self.old) word.now }
        requires few { IsFew (store_of self.old) }
        ensures ok { OnOk result (Takes Action.Head word.now (store_of self.old) (store_of self.new)) }
        ensures stop { (which : Counted) → IsErrOf result (Stop.Limit which) → Passes Action.Head word.now (store_of self.old) (limit_of which) }
    {
        check_name(word)?;
        self.kids.clear();
        self.set_head(word)
    }

    fn take_kid(&mut self, word: &[u8]) -> Result<(), Stop>
        requires ready { IsReady Action.Kid (store_of self.old) word.now }
        requires few { IsFew (store_of self.old) }
        ensures ok { OnOk result (Takes Action.Kid word.now (store_of self.old) (store_of self.new)) }
        ensures stop { (which : Counted) → IsErrOf result (Stop.Limit which) → Passes Action.Kid word.now (store_of self.old) (limit_of which) }
    {
        check_name(word)?;
        if self.kids.len() >= MOST_RANK {
            return Err(Stop::Limit(Counted::Rank));
        }
        let place = self.put_state(word)?;
        self.kids.push(place)?;
        Ok(())
    }

    fn take_arrow(&mut self, word: &[u8]) -> Result<(), Stop>
        requires ready { IsReady Action.Arrow (store_of self.old) word.now }
        requires few { IsFew (store_of self.old) }
        ensures ok { OnOk result (Takes Action.Arrow word.now (store_of self.old) (store_of self.new)) }
        ensures stop { (which : Counted) → IsErrOf result (Stop.Limit which) → Passes Action.Arrow word.now (store_of self.old) (limit_of which) }
    {
        let rank = self.kids.len() as u8;
        self.symbol = self.put_symbol(rank)?;
        Ok(())
    }

    fn take_parent(&mut self, word: &[u8]) -> Result<(), Stop>
        requires ready { IsReady Action.Parent (store_of self.old) word.now }
        requires few { IsFew (store_of self.old) }
        ensures ok { OnOk result (Takes Action.Parent word.now (store_of self.old) (store_of self.new)) }
        ensures stop { (which : Counted) → IsErrOf result (Stop.Limit which) → Passes Action.Parent word.now (store_of self.old) (limit_of which) }
    {
        check_name(word)?;
        let place = self.put_state(word)?;
        self.put_rule(place)?;
        Ok(())
    }

    /// Takes a token with these bytes, which says this.
    pub fn take(&mut self, action: Action, word: &[u8]) -> Result<(), Stop>
        requires ready { IsReady action (store_of self.old) word.now }
        requires few { IsFew (store_of self.old) }
        ensures ok { OnOk result (Takes action word.now (store_of self.old) (store_of self.new)) }
        ensures stop { (which : Counted) → IsErrOf result (Stop.Limit which) → Passes action word.now (store_of self.old) (limit_of which) }
    {
        match action {
            Action::Plain => Ok(()),
            Action::Title => self.take_title(word),
            Action::OpName => self.take_op_name(word),
            Action::OpRank => self.take_op_rank(word),
            Action::State => self.take_state(word),
            Action::Final => self.take_final(word),
            Action::Head => self.take_head(word),
            Action::Kid => self.take_kid(word),
            Action::Arrow => self.take_arrow(word),
            Action::Parent => self.take_parent(word),
        }
    }
}
