//! Licensees who come and who leave.

ghost use Rattle.std.specs.Prelude.{◌≡◌, ◌+◌, ◌<◌, None, true, length, OnOk, OnErr, IfOk, IfErr};
ghost use Rattle.register_terms.specs.Rules.{enrolment_of, refusal_of, with_licensee, with_name, with_withdrawn, is_active};
ghost use Rattle.lic_register.specs.Answers.{EnrolsAs, withdrawal_of};
ghost use Rattle.lic_register.specs.declared.errors.EnrolError.TheVariants as enrol_errors;

use crate::errors::{EnrolError, WithdrawError};
use crate::register::Register;
use steps::{Looks, Steps};
use texts::is_plain;

impl Register {
    /// Enrols a plain name as active, and answers its serial, which is the number of licensees before. A refused name
    /// leaves the register as it was.
    pub fn enrol(&mut self, name: &str) -> Result<u32, EnrolError>
        ensures answer { EnrolsAs result (enrolment_of self.old name.now) }
        ensures enrolled { OnOk result (self.new ≡ with_name self.old name.now) }
        ensures refused { OnErr result (self.new ≡ self.old) }
    {
        self.admit(name, true)
    }

    /// Enrols a plain name in this state.
    pub(crate) fn admit(&mut self, name: &str, active: bool) -> Result<u32, EnrolError>
        ensures answer { EnrolsAs result (enrolment_of self.old name.now) }
        ensures enrolled { OnOk result (self.new
            ≡ with_licensee self.old (record { name = name.now; active = active })) }
        ensures welcome { OnOk result (refusal_of self.old name.now ≡ None) }
        ensures refused { OnErr result (self.new ≡ self.old) }
    {
        if !is_plain(name) {
            return Err(EnrolError::BadName);
        }
        if let Some(serial) = self.serial(name) {
            return Err(EnrolError::NameTaken(serial));
        }
        let serial = self.len();
        if serial >= self.rule.capacity() {
            return Err(EnrolError::Full(serial));
        }
        self.add(name, active)?;
        Ok(serial)
    }

    /// Adds a name that is not refused as the last one. Where memory is wanting, nothing changes.
    fn add(&mut self, name: &str, active: bool) -> Result<(), EnrolError>
        requires { refusal_of self.old name.now ≡ None }
        ensures added { OnOk result (self.new
            ≡ with_licensee self.old (record { name = name.now; active = active })) }
        ensures memory { IfErr result (λ e. e ≡ enrol_errors.Memory) }
        ensures kept { OnErr result (self.new ≡ self.old) }
    {
        let key = String::from_str(self.alloc, name)?;
        self.licensees.insert(key, active)?;
        Ok(())
    }

    /// Withdraws the licensee with this name, whose serial, name and message stay taken, and answers the serial. A refusal
    /// leaves the register as it was. It takes no memory, and is one look.
    pub fn withdraw<Q: Looks>(
        &mut self,
        name: &str,
        looks: &mut Steps<Q>,
    ) -> Result<u32, WithdrawError>
        ensures answer { result ≡ withdrawal_of self.old name.now }
        ensures withdrawn { IfOk result (λ serial. self.new ≡ with_withdrawn self.old serial) }
        ensures refused { OnErr result (self.new ≡ self.old) }
        ensures looks { looks.new ≡ looks.old + 1 }
    {
        looks.tick();
        let Some(serial) = self.serial(name) else {
            return Err(WithdrawError::Unknown);
        };
        if !self.is_active(serial) {
            return Err(WithdrawError::Already(serial));
        }
        self.end_licence(serial);
        Ok(serial)
    }

    /// Whether the licensee of this serial is active.
    fn is_active(&self, serial: u32) -> bool
        ensures { result ≡ is_active self.now serial }
    {
        match self.licensees.get_index(serial as usize) {
            Some((_, active)) => *active,
            None => false,
        }
    }

    /// Makes the licensee of this serial withdrawn.
    fn end_licence(&mut self, serial: u32)
        requires { serial < length self.old.licensees }
        ensures { self.new ≡ with_withdrawn self.old serial }
    {
        self.licensees[serial as usize] = false;
    }
}
