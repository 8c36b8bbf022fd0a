//! Commands of the ground.

ghost use Rattle.std.specs.Prelude.{◌≡◌, true, IfOk, OnErr};
ghost use Rattle.tbl_kinds.specs.declared.request.Actor.TheVariants as by;
ghost use Rattle.request_effects.specs.Requests.{read_of};
ghost use Rattle.request_effects.specs.Effects.{HasRoom};
ghost use Rattle.desk.specs.Desk.{IsEmpty, output};
ghost use Rattle.store_requests.specs.Copying.{told_in};
ghost use Rattle.tbl_core.specs.Answers.{moment_of, CanAnswer, Answered, CommandMade};
ghost use Rattle.tbl_core.specs.Requests.{is_command};
ghost use Rattle.tbl_core.specs.Service.{parts_view, AreReady};

use crate::ending::{answer_in, answered, keep_given};
use crate::parts::{Parts, Telemetry};
use crate::requests::commanded;
use cmd_packets::Ground;
use reply_packets::tell_command;
use request_effects::{ReadCommand, Report, read};
use store_requests::delete_cds;
use tbl_kinds::{Entry, Memory, Note, Reply, Request};
use tbl_outside::{Bank, Validator};

impl<B: Bank, C: Validator> Parts<B, C> {
    /// Plays a command, and reports what it did.
    pub(crate) fn command(
        &mut self,
        entry: &mut Entry,
        telemetry: &mut Telemetry,
    ) -> Result<(), Memory>
        requires command { is_command entry.old.request ≡ true }
        requires actor { entry.old.actor ≡ by.Ground }
        requires stands { CanAnswer C.Validator (moment_of self.old telemetry.old entry.old) }
        ensures { Answered B.Bank C.Validator (moment_of self.old telemetry.old entry.old) (moment_of self.new telemetry.new entry.new) result }
    {
        let Request::Command { bytes } = &entry.request else {
            unreachable!();
        };
        let clock = self.desk.clock;
        let mut command = Ok(Ground::Noop);
        read(bytes.bytes(), &mut command);
        let reply = &mut entry.reply;
        let mut note = self.command_effect(&command, reply, &mut telemetry.report)?;
        let answer = answer_in(reply);
        self.boot_if_stopped(&mut note);
        let packets = &mut reply.packets;
        let tables = &self.desk.tables;
        tell_command(
            packets,
            clock,
            &mut telemetry.counters,
            tables,
            &command,
            answer,
            &telemetry.report,
        );
        keep_given(&mut entry.given, note, &telemetry.report);
        Ok(())
    }

    /// Does what a command asks that was read so. If a call of the store was stopped, as the note says, the service doesn't boot yet.
    fn command_effect(
        &mut self,
        command: &ReadCommand,
        reply: &mut Reply,
        report: &mut Report,
    ) -> Result<Note, Memory>
        requires ready { AreReady C.Validator (parts_view self.old) }
        requires empty { IsEmpty (output reply.old report.old) }
        ensures made { IfOk result (λ note. CommandMade B.Bank C.Validator (parts_view self.old) (parts_view self.new) (read_of command.now) (told_in reply.new report.new note)) }
        ensures room { IfOk result (λ note. HasRoom 24 reply.new.packets (told_in reply.new report.new note)) }
        ensures err { OnErr result (parts_view self.new ≡ parts_view self.old) }
    {
        match command {
            Err(fault) => Ok(answered(reply, fault.answer())),
            Ok(Ground::DeleteCds { table }) => {
                let effect = delete_cds(&self.desk, &mut self.store, report, table)?;
                Ok(effect.put(reply))
            }
            Ok(command) => {
                let answer = commanded(&mut self.desk, reply, report, command)?;
                Ok(answered(reply, answer))
            }
        }
    }
}
