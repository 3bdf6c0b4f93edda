ghost use Rattle.std.specs.Prelude.{◌≡◌};
ghost use Rattle.float_forms.specs.Forms.{size_of, version_of, rays_of, form_of, long_form, Versioned};

// How a record writes its floats, by its version: 1 and 2 in 8 bytes, 3 in 4. A ray of version 1 has no near distance.
#[derive(Clone, Copy, Debug, PartialEq, Eq)]
pub enum Form {
    First,
    Long,
    Short,
}

// A byte that is no version of a record.
#[derive(Clone, Copy, Debug, PartialEq, Eq)]
pub struct UnknownVersion(pub u8);

impl TryFrom<u8> for Form {
    type Error = UnknownVersion;

    ghost try_from_gives = { Versioned };

    fn try_from(version: u8) -> Result<Form, UnknownVersion> {
        match version {
            1 => Ok(Form::First),
            2 => Ok(Form::Long),
            3 => Ok(Form::Short),
            _ => Err(UnknownVersion(version)),
        }
    }
}

// The version byte.
impl From<Form> for u8 {
    ghost from_gives = { λ form version. version ≡ version_of form };

    fn from(form: Form) -> u8 {
        match form {
            Form::First => 1,
            Form::Long => 2,
            Form::Short => 3,
        }
    }
}

impl Form {
    // How many bytes a float has.
    pub fn size_of(self) -> usize
        ensures { result ≡ size_of self }
    {
        match self {
            Form::First => 8,
            Form::Long => 8,
            Form::Short => 4,
        }
    }

    // How many floats a ray has.
    pub fn ray_count(self) -> usize
        ensures { result ≡ rays_of self }
    {
        match self {
            Form::First => 7,
            Form::Long => 8,
            Form::Short => 8,
        }
    }

    // The form with the same fields and floats of 8 bytes.
    pub fn long_form(self) -> Form
        ensures { result ≡ long_form self }
    {
        match self {
            Form::First => Form::First,
            Form::Long => Form::Long,
            Form::Short => Form::Long,
        }
    }
}

// The form of a version byte; of another byte that of version 2, whose version byte it is not.
pub fn form_of(version: u8) -> Form
    ensures { result ≡ form_of version }
{
    Form::try_from(version).unwrap_or(Form::Long)
}
