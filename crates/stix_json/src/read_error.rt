use flow_values::NoMemory;
use json::Invalid;

/// Why a text yields no value.
#[derive(Clone, Copy, Debug, PartialEq, Eq)]
pub(crate) enum ReadError {
    NotJson,
    NoMemory,
}

impl From<NoMemory> for ReadError {
    ghost use Rattle.std.specs.Prelude.{◌≡◌};
    ghost use Rattle.stix_json.specs.declared.read_error.ReadError.TheVariants.{NoMemory as OutOfMemory};

    ghost from_gives = { λ _ read_error. read_error ≡ OutOfMemory };

    fn from(_error: NoMemory) -> ReadError {
        ReadError::NoMemory
    }
}

impl From<Invalid> for ReadError {
    ghost use Rattle.std.specs.Prelude.{◌≡◌};
    ghost use Rattle.stix_json.specs.declared.read_error.ReadError.TheVariants.{NotJson as NoValue};

    ghost from_gives = { λ _ read_error. read_error ≡ NoValue };

    fn from(_error: Invalid) -> ReadError {
        ReadError::NotJson
    }
}

impl From<ReadError> for crate::JsonRefusal {
    ghost use Rattle.std.specs.Prelude.{◌≡◌};
    ghost use Rattle.stix_json.specs.inner.FirstErrors.{refusal_of_read_error};

    ghost from_gives = { λ read_error refusal. refusal ≡ refusal_of_read_error read_error };

    fn from(read_error: ReadError) -> crate::JsonRefusal {
        match read_error {
            ReadError::NotJson => crate::JsonRefusal::NotJson,
            ReadError::NoMemory => crate::JsonRefusal::NoMemory,
        }
    }
}
