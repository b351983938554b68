// The law of rooms. These functions do nothing: their contracts are theorems.
ghost use Rattle.machine.specs.Law.{RoomsAgree, RoomsSteady};

// Every room is right, and any two rooms agree, whatever the order of their calls.
pub fn rooms_agree()
    ensures { RoomsAgree }
{}

// Every state that a room reaches is steady.
pub fn rooms_steady()
    ensures { RoomsSteady }
{}
