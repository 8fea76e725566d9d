//! Rows whose units are served and freed, and whose entries come and go, in their order.
ghost use Rattle.std.specs.Prelude.{◌≡◌};
ghost use Rattle.rule_txn.specs.Rows.{with_use, with_uses, less_use, less_uses, CanServe, CanServeAll, CanFree, CanFreeAll, first_turn, turn_after, with_row, with_rows, less_row, less_rows, CanSettle, CanSettleAll, CanLeave, CanLeaveAll};

use super::Stage;
use crate::rows::{Leased, Turn};
use sketch_defs::Task;
use sketch_lower::lower;

impl Stage {
    /// One use more on the units of a row.
    fn serve(&mut self, task: &Task, row: &Option<Leased>)
        requires { CanServe self.old.geometry task.now.key self.old.groups row.now }
        ensures { self.new ≡ record self.old {
          groups = with_use self.old.geometry task.now.key self.old.groups row.now;
        } }
    {
        if let Some(row) = row {
            let group = self.pipe.shape().group_of(row.array());
            let _ = self.pipe.serve(group, task.key());
        }
    }

    /// One use more on the units of each row.
    pub(super) fn serve_all(&mut self, task: &Task, rows: &[Option<Leased>; 4])
        requires { CanServeAll self.old.geometry task.now.key self.old.groups rows.now }
        ensures { self.new ≡ record self.old {
          groups = with_uses self.old.geometry task.now.key self.old.groups rows.now;
        } }
    {
        let [one, two, three, four] = rows;
        self.serve(task, one);
        self.serve(task, two);
        self.serve(task, three);
        self.serve(task, four);
    }

    /// One use less on the units of a row.
    fn free(&mut self, row: &Option<Leased>)
        requires { CanFree self.old.geometry self.old.groups row.now }
        ensures { self.new ≡ record self.old {
          groups = less_use self.old.geometry self.old.groups row.now;
        } }
    {
        if let Some(row) = row {
            let group = self.pipe.shape().group_of(row.array());
            self.pipe.free(group, row.keys());
        }
    }

    /// One use less on the units of each row.
    pub(super) fn free_all(&mut self, rows: &[Option<Leased>; 4])
        requires { CanFreeAll self.old.geometry self.old.groups rows.now }
        ensures { self.new ≡ record self.old {
          groups = less_uses self.old.geometry self.old.groups rows.now;
        } }
    {
        let [one, two, three, four] = rows;
        self.free(one);
        self.free(two);
        self.free(three);
        self.free(four);
    }

    /// Installs the entry of a row, and answers the turn of the next.
    fn install(&mut self, task: &Task, turn: Turn, row: &Option<Leased>) -> Turn
        requires { CanSettle self.old.geometry task.now turn self.old.tables row.now }
        ensures turn { result ≡ turn_after turn row.now }
        ensures state { self.new ≡ record self.old {
          tables = with_row task.now turn self.old.tables row.now;
        } }
    {
        match row {
            None => turn,
            Some(row) => {
                let entry = lower(task, turn.row, row.keys(), row.region(), turn.before);
                self.pipe.install(row.array(), entry);
                Turn {
                    row: turn.row + 1,
                    before: Some(row.array()),
                }
            }
        }
    }

    /// Installs the entries of a task's rows.
    pub(super) fn install_all(&mut self, task: &Task, rows: &[Option<Leased>; 4])
        requires { CanSettleAll self.old.geometry task.now first_turn self.old.tables rows.now }
        ensures { self.new ≡ record self.old {
          tables = with_rows task.now first_turn self.old.tables rows.now;
        } }
    {
        let [one, two, three, four] = rows;
        let turn = Turn {
            row: 0,
            before: None,
        };
        let turn = self.install(task, turn, one);
        let turn = self.install(task, turn, two);
        let turn = self.install(task, turn, three);
        self.install(task, turn, four);
    }

    /// Takes the entry of a row out of its table.
    fn uninstall(&mut self, row: &Option<Leased>)
        requires { CanLeave self.old.geometry self.old.tables row.now }
        ensures { self.new ≡ record self.old { tables = less_row self.old.tables row.now } }
    {
        if let Some(row) = row {
            let _ = self.pipe.uninstall(row.array(), row.region().base);
        }
    }

    /// Takes the entries of rows out of their tables.
    pub(super) fn uninstall_all(&mut self, rows: &[Option<Leased>; 4])
        requires { CanLeaveAll self.old.geometry self.old.tables rows.now }
        ensures { self.new ≡ record self.old { tables = less_rows self.old.tables rows.now } }
    {
        let [one, two, three, four] = rows;
        self.uninstall(one);
        self.uninstall(two);
        self.uninstall(three);
        self.uninstall(four);
    }
}
