// Answers and refusals.
ghost use Rattle.std.specs.Prelude.{◌≡◌, ℕ, IsTrue, IfOk, OnOk};
ghost use Rattle.http_head.specs.Answers.{has_reason};
ghost use Rattle.session_loop.specs.Courses.{counted};
ghost use Rattle.session_loop.specs.Rooms.{Falls};
ghost use Rattle.session_loop.specs.Safety.{IsSafe};
ghost use Rattle.session_loop.specs.Sessions.{IsSettled, WantsIs, LeadsBy, TracksBy, IsRefusing, IsAnswering, IsFiled};

use crate::session::Session;
use crate::stage::Stage;
use crate::want::{SessionEnd, Want};
use compact_values::NoMemory;
use doc_model::{Reply, Submitted};
use http_head::{Media, write_answer};
use itoa::Buffer;

impl Session {
    // Ends for want of memory.
    pub(crate) fn give_up(&mut self) -> Result<(), NoMemory>
        ensures stage { self.new.stage ≡ Stage.Over SessionEnd.NoMemory }
        ensures err { IfOk result (λ _. ⊥) }
    {
        self.stage = Stage::Over {
            end: SessionEnd::NoMemory,
        };
        Err(NoMemory)
    }

    // Refuses the present request.
    pub(crate) fn refuse(&mut self, status: u16) -> Result<(), NoMemory>
        requires { IsTrue (has_reason status) }
        ensures is { OnOk result (IsRefusing status self.new) }
        ensures names { OnOk result (self.new.names ≡ self.old.names) }
    {
        self.output.truncate(0);
        write_answer(&mut self.output, status, Media::Empty, b"", true)?;
        self.stage = Stage::Writing {
            next: Some(SessionEnd::Refused { status }),
        };
        Ok(())
    }

    // Answers the present request.
    pub(crate) fn answer(&mut self, media: Media, body: &[u8], close: bool) -> Result<(), NoMemory>
        ensures { OnOk result (IsAnswering self.old media body.now close self.new) }
    {
        let last = close || self.left == 1;
        self.output.truncate(0);
        write_answer(&mut self.output, 200, media, body, last)?;
        self.stage = Stage::Writing {
            next: if last { Some(SessionEnd::Ended) } else { None },
        };
        Ok(())
    }

    // Answers the file. A call for it that isn't answered leaves nothing that could be said.
    pub(crate) fn take_file(&mut self, submitted: Submitted, close: bool) -> Result<(), NoMemory>
        ensures { OnOk result (IsFiled self.old submitted close self.new) }
    {
        match submitted {
            Submitted::Answered {
                reply: Reply::File { bytes },
            } => self.answer(Media::Binary, bytes.as_slice(), close),
            _ => Err(NoMemory),
        }
    }

    // Answers how many changes the document has seen.
    pub(crate) fn take_front(&mut self, count: u64) -> Result<(), NoMemory>
        requires { (doc : ℕ) × WantsIs self.old.stage (Want.Front doc) }
        ensures leads { OnOk result ((doc : ℕ) → WantsIs self.old.stage (Want.Front doc) → LeadsBy self.old (counted doc count) self.new) }
        ensures tracks { OnOk result ((doc : ℕ) → WantsIs self.old.stage (Want.Front doc) → TracksBy self.old (counted doc count) self.new) }
        ensures settled { OnOk result (IsSettled self.new) }
        ensures names { OnOk result (self.new.names ≡ self.old.names) }
        ensures safe { OnOk result (IsSafe self.old → IsSafe self.new) }
        ensures falls { OnOk result (Falls self.old self.new) }
    {
        match self.stage {
            Stage::Fronting { doc: _, close } => {
                let mut buffer = Buffer::new();
                self.answer(Media::Plain, buffer.format(count).as_bytes(), close)?;
                Ok(())
            }
            _ => unreachable!(),
        }
    }
}
