//! `Conversation`: takes what arrives from gdb, has the session answer, and sends the packets. This is the thread that computes.
use crate::inbox::Inbox;
use crate::keeper::Keeper;
use crate::session::{Next, Session};
use gdb_packets::{Arrival, Packets, framed};
use std::alloc::Global;
use std::io::Write;
use std::sync::Wait;
use timeline::SessionFault;

/// The most slices that the machine goes on after the input has ended. So all packets that came before are answered, and yet the
/// session ends soon after gdb has gone.
const LAST_SLICES: u32 = 1024;

/// A session, and gdb at its other end.
pub struct Conversation<'x, K, O> {
    alloc: Global,
    session: Session,
    keeper: &'x mut K,
    out: &'x mut O,
    packets: Packets,
    /// Whether packets are acknowledged.
    acks: bool,
    /// How many slices the machine went on since the input ended.
    last: u32,
}

impl<K, O> Drop for Conversation<'_, K, O> {
    fn drop(self) {
        let Conversation {
            alloc: _,
            session: _session,
            keeper: _,
            out: _,
            packets: _packets,
            acks: _,
            last: _,
        } = self;
    }
}

impl<'x, K: Keeper, O: Write> Conversation<'x, K, O> {
    /// A conversation before its first packet.
    pub fn new(
        alloc: Global,
        session: Session,
        keeper: &'x mut K,
        out: &'x mut O,
    ) -> Conversation<'x, K, O> {
        Conversation {
            alloc,
            session,
            keeper,
            out,
            packets: Packets::new(alloc),
            acks: true,
            last: 0,
        }
    }

    /// Sends the packets that are to go out.
    fn send(&mut self) -> Result<(), SessionFault> {
        for payload in self.packets.payloads() {
            let packet = framed(self.alloc, payload.as_slice())?;
            self.out.write_all(packet.as_slice())?;
        }
        self.packets.clear();
        Ok(self.out.flush()?)
    }

    /// Acknowledges a packet, or says that it has to come again.
    fn acknowledge(&mut self, mark: &[u8]) -> Result<(), SessionFault> {
        if self.acks {
            self.out.write_all(mark)?;
            self.out.flush()?;
        }
        Ok(())
    }

    /// Counts a slice where the input has ended. Says whether there were too many of them.
    fn is_late<R: Wait>(&mut self, rt: &R, inbox: &Inbox) -> Result<bool, SessionFault> {
        if let Some(end) = inbox.end(rt) {
            end?;
            self.last = self.last.saturating_add(1);
        }
        Ok(self.last > LAST_SLICES)
    }

    /// Runs the machine for a slice, unless gdb interrupts it, or has gone for long. Says whether the machine goes on.
    fn slice<R: Wait>(&mut self, rt: &R, inbox: &Inbox) -> Result<bool, SessionFault> {
        if inbox.is_interrupted(rt) {
            self.session.interrupt(&mut self.packets)?;
            return Ok(false);
        }
        if !self.session.go_on(&mut self.packets)? {
            return Ok(false);
        }
        if self.is_late(rt, inbox)? {
            self.session.cut(&mut self.packets)?;
            return Ok(false);
        }
        Ok(true)
    }

    /// Runs the machine until it stops.
    fn run<R: Wait>(&mut self, rt: &R, inbox: &Inbox) -> Result<(), SessionFault> {
        for _ in rt.forever() {
            let goes_on = self.slice(rt, inbox)?;
            self.send()?;
            if !goes_on {
                return Ok(());
            }
        }
        unreachable!()
    }

    /// Keeps the disk, and says what came of it.
    fn keep(&mut self) -> Result<(), SessionFault> {
        if let Some(disk) = self.session.disk()? {
            let line = self.keeper.keep(&disk);
            self.session.tell_kept(line, &mut self.packets)?;
        }
        self.send()
    }

    /// Answers a packet. Says whether the conversation goes on.
    fn answer<R: Wait>(
        &mut self,
        rt: &R,
        inbox: &Inbox,
        payload: &[u8],
    ) -> Result<bool, SessionFault> {
        self.acknowledge(b"+")?;
        let next = self.session.answer(payload, &mut self.packets)?;
        self.send()?;
        match next {
            Next::Await => Ok(true),
            Next::NoAcks => {
                self.acks = false;
                Ok(true)
            }
            Next::Go => {
                self.run(rt, inbox)?;
                Ok(true)
            }
            Next::Keep => {
                self.keep()?;
                Ok(true)
            }
            Next::End => Ok(false),
        }
    }

    /// Answers all that comes, until gdb leaves.
    pub fn answer_all<R: Wait>(&mut self, rt: &R, inbox: &Inbox) -> Result<(), SessionFault> {
        for _ in rt.forever() {
            match inbox.next(rt)? {
                None => return Ok(()),
                Some(Arrival::Packet(payload)) => {
                    if !self.answer(rt, inbox, payload.as_slice())? {
                        return Ok(());
                    }
                }
                Some(Arrival::Refused) => self.acknowledge(b"-")?,
                Some(_) => {}
            }
        }
        unreachable!()
    }
}
