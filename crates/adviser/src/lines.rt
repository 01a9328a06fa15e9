// The words of each line of `tune`. `#` stands for the next of its numbers.
use command_tune::Form;

// The words of a form.
pub(crate) fn words(form: Form) -> &'static [u8] {
    match form {
        Form::Refused => b"refused #\n",
        Form::Tried => b"tried # to #\n",
        Form::OwnPlan => b"own # plan\n",
        Form::OwnRefused => b"own # refused #\n",
        Form::Plans => b"plans #\n",
        Form::Smallest => b"smallest #\n",
        Form::Largest => b"largest #\n",
        Form::Below => b"below #\n",
        Form::NoneBelow => b"below -\n",
        Form::Above => b"above #\n",
        Form::NoneAbove => b"above -\n",
        Form::Best => b"best #\n",
        Form::Plan => b"plan # # # #\n",
    }
}
