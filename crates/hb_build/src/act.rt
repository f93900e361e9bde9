//! An action of the grammar, done.

ghost use Rattle.hb_build.specs.Acts.{act};
ghost use Rattle.hb_build.specs.Answers.{Answers, FitsTo, HasNameRoom};
ghost use Rattle.hb_build.specs.Needs.{HasToken, needs};
ghost use Rattle.hb_build.specs.Sound.{work_of};

use crate::builder::Builder;
use crate::faults::ParseFail;
use crate::held::Spot;
use hb_grammar::Action;

impl Builder {
    /// Does an action behind a token that stands here and has these bytes.
    ///
    /// Its faults are those that its definition finds; only memory may run out beside them. No more is said of a builder
    /// that answered a fault.
    pub fn act(&mut self, action: Action, spot: Spot, bytes: &[u8]) -> Result<(), ParseFail>
        requires fits { FitsTo action spot bytes.now self.old }
        requires token { HasToken (needs action) bytes.now }
        requires room { HasNameRoom self.old }
        ensures { Answers (act action spot bytes.now (work_of self.old)) result self.new }
    {
        match action {
            Action::DeclareClass => self.declare_class(spot, bytes),
            Action::BeginSetup => self.begin_setup(),
            Action::EndSetup => self.end_setup(),
            Action::BeginScript => self.begin_script(spot, bytes),
            Action::EndScript => self.end_script(spot),
            Action::BeginBlock => self.begin_block(),
            Action::EndBlock => self.end_block(spot),
            Action::AddItem => self.add_item(),
            Action::Open => self.open(spot),
            Action::Close => self.close(),
            Action::OpenWord => self.open_word(spot),
            Action::OpenAssign => self.open_assign(spot),
            Action::HoldOperator => self.hold_operator(spot),
            Action::HoldStr => self.hold_str(spot),
            Action::HoldDeclare => self.hold_declare(spot),
            Action::HoldName => self.hold_name(spot, bytes),
            Action::HoldCall => self.hold_call(spot, bytes),
            Action::HoldClass => self.hold_class(spot, bytes),
            Action::NameMethod => self.name_method(bytes),
            Action::ComputeMethod => self.compute_method(),
            Action::HoldParameter => self.hold_parameter(spot, bytes),
            Action::BeginBody => self.begin_body(),
            Action::HoldType(ty) => self.hold_type(ty),
            Action::HoldClassType => self.hold_class_type(spot, bytes),
            Action::AddParameterType => self.add_parameter_type(spot),
            Action::AddArgument => self.add_argument(spot),
            Action::PutNil => self.put_nil(spot),
            Action::PutBoolean(value) => self.put_boolean(value, spot),
            Action::PutSelf => self.put_self(spot),
            Action::PutNumber => self.put_number(spot, bytes),
            Action::PutText => self.put_text(spot, bytes),
            Action::PutVariable => self.put_variable(),
            Action::PutNew => self.put_new(),
            Action::PutAssign => self.put_assign(),
            Action::PutPrint => self.put_print(),
            Action::PutStr => self.put_str(),
            Action::PutNot => self.put_not(),
            Action::PutBinary(op) => self.put_binary(op),
            Action::PutIf => self.put_if(),
            Action::PutWhile => self.put_while(),
            Action::PutCall => self.put_call(),
            Action::PutDef => self.put_def(),
            Action::PutDeclare(asks) => self.put_declare(asks),
        }
    }
}
