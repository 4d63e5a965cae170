/// How a run ends; its number is the program's exit status.
#[derive(Clone, Copy, Debug, PartialEq, Eq)]
pub enum Status {
    /// 0: the command succeeded.
    Ok,
    /// 2: the words aren't a command line.
    Usage,
    /// 3: the images have a fault; the text names it with its object and place.
    Image,
    /// 4: the command is refused, and the text says why.
    Refused,
    /// 5: reading the images or the script failed.
    ReadFault,
    /// 6: writing the image set or the text failed.
    WriteFault,
    /// 7: memory ran out.
    OutOfMemory,
    /// 8: power was cut, as the command line asked.
    PowerCut,
}

/// How a run ends if nothing outside fails and memory is found.
#[derive(Clone, Copy, Debug, PartialEq, Eq)]
pub enum Ending {
    Done,
    Usage,
    Image,
    Refused,
    PowerCut,
}

/// Why a run stops without an answer.
#[derive(Clone, Copy, Debug, PartialEq, Eq)]
pub enum RunStop {
    ReadFault,
    OutOfMemory,
}

impl Status {
    ghost use Rattle.std.specs.Prelude.{◌≡◌};
    ghost use Rattle.shell_reports.specs.Outcome.{exit_status_of};

    /// The program's exit status.
    pub fn exit_status(self) -> u8
        ensures { result ≡ exit_status_of self }
    {
        match self {
            Status::Ok => 0,
            Status::Usage => 2,
            Status::Image => 3,
            Status::Refused => 4,
            Status::ReadFault => 5,
            Status::WriteFault => 6,
            Status::OutOfMemory => 7,
            Status::PowerCut => 8,
        }
    }
}

impl Ending {
    ghost use Rattle.std.specs.Prelude.{◌≡◌};
    ghost use Rattle.shell_reports.specs.Outcome.{status_of};

    /// Returns the status of a run with this ending.
    pub fn status(self) -> Status
        ensures { result ≡ status_of self }
    {
        match self {
            Ending::Done => Status::Ok,
            Ending::Usage => Status::Usage,
            Ending::Image => Status::Image,
            Ending::Refused => Status::Refused,
            Ending::PowerCut => Status::PowerCut,
        }
    }
}
