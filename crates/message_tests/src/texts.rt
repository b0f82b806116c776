//! Texts as a whole, in tables, with `'` for `"`.

/// Texts that are no message, each behind what is told of it.
pub const WHOLE_FAULTS: &str = "JSON - {
JSON - {'ReqPay':}
JSON - {} {}
JSON - {'ReqPay':1e309}
JSON - nul
ROOT - 1
ROOT - null
ROOT - []
ROOT - {}
ROOT - {'Reqpay':{}}
ROOT - {'ReqPay':{},'RespPay':{}}
ROOT - {'Ack':{}}
KIND ReqPay {'ReqPay':[]}
KIND RespAuthDetails {'RespAuthDetails':1}
KIND ReqChkTxn {'ReqChkTxn':null}
KIND RespTxnConfirmation {'RespTxnConfirmation':''}
KIND RespPay {'RespPay':true}
KIND ReqAuthDetails {'ReqAuthDetails':0}
KIND RespChkTxn {'RespChkTxn':[]}
KIND ReqTxnConfirmation {'ReqTxnConfirmation':[]}
MISSING ReqAuthDetails.Head {'ReqAuthDetails':{'Txn':5}}
MISSING RespChkTxn.Head {'RespChkTxn':{'Txn':5}}
MISSING ReqTxnConfirmation.Head {'ReqTxnConfirmation':{'Txn':5}}";

/// Of two faults the first in the order of the rules counts, wherever they stand in the text.
pub const FIRST_FAULTS: &str = "MISSING ReqPay.Head {'ReqPay':{'Txn':1}}
VALUE ReqPay.Head.msgId {'ReqPay':{'Head':{'ver':1,'msgId':''}}}
VALUE ReqPay.Head.ts {'ReqPay':{'Head':{'msgId':'A','orgId':'a','ts':'','ver':1}}}
MISSING ReqPay.Txn.type {'ReqPay':{'Head':{'msgId':'A','orgId':'a','ts':'1970-01-01T00:00:00Z','ver':'1.0'},'Payees':1,'Payer':1,'Txn':{'id':'T'}}}
KIND ReqPay.Txn.note {'ReqPay':{'Head':{'msgId':'A','orgId':'a','ts':'1970-01-01T00:00:00Z','ver':'1.0'},'Payees':1,'Payer':1,'Txn':{'id':'T','type':'PAY','note':1,'Rules':1}}}
KIND ReqPay.Txn.Rules {'ReqPay':{'Head':{'msgId':'A','orgId':'a','ts':'1970-01-01T00:00:00Z','ver':'2.0'},'Payees':1,'Payer':1,'Txn':{'id':'T','type':'PAY','purpose':'','initiationMode':'','Rules':1}}}
VALUE ReqPay.Txn.initiationMode {'ReqPay':{'Head':{'msgId':'A','orgId':'a','ts':'1970-01-01T00:00:00Z','ver':'2.0'},'Payees':1,'Payer':1,'Txn':{'id':'T','type':'PAY','purpose':'','initiationMode':''}}}
VALUE ReqPay.Payer.addr {'ReqPay':{'Head':{'msgId':'A','orgId':'a','ts':'1970-01-01T00:00:00Z','ver':'1.0'},'Payees':1,'Payer':{'Ac':1,'addr':'','Amount':1},'Txn':{'id':'T','type':'PAY'}}}
MISSING ReqPay.Payer.Amount.curr {'ReqPay':{'Head':{'msgId':'A','orgId':'a','ts':'1970-01-01T00:00:00Z','ver':'1.0'},'Payees':1,'Payer':{'Ac':1,'addr':'a@b','Amount':{'value':1}},'Txn':{'id':'T','type':'PAY'}}}
VALUE RespAuthDetails.Resp.reqMsgId {'RespAuthDetails':{'Head':{'msgId':'A','orgId':'a','ts':'1970-01-01T00:00:00Z','ver':'1.0'},'Payer':1,'Resp':{'result':'','reqMsgId':''},'Txn':1}}
KIND RespAuthDetails.Payer {'RespAuthDetails':{'Head':{'msgId':'A','orgId':'a','ts':'1970-01-01T00:00:00Z','ver':'1.0'},'Payees':1,'Payer':1,'Resp':{'result':'SUCCESS','reqMsgId':'M'},'Txn':{'id':'T'}}}
KIND RespTxnConfirmation.Resp {'RespTxnConfirmation':{'Head':{'msgId':'A','orgId':'a','ts':'1970-01-01T00:00:00Z','ver':'1.0'},'Resp':1,'Txn':1}}";

/// A payment of 30.00 by ann to bob.
pub const PLAIN: &str =
    "{'ReqPay':{'Head':{'msgId':'A1','orgId':'alpha','ts':'2024-01-01T05:30:00+05:30','ver':'1.0'},'Payees':{'Payee':[{'addr':'bob@beta'}]},'Payer':{'Amount':{'curr':'INR','value':'30.00'},'addr':'ann@alpha'},'Txn':{'id':'T1','type':'PAY'}}}";

/// Forms that are read, and then written as the payment above. A line `= TEXT` names a part of it,
/// and each line below what stands in its place.
pub const FORMS: &str = "= 'T1','type'
 \t'T1' ,'type'
= 'T1'
'\\u00541'
= '30.00'
'30'
'0030.0'
= 2024-01-01T05:30:00+05:30
2024-01-01T00:00:00.999Z
2023-12-31T23:00:00-01:00
= 'type':'PAY'
'note':'','type':'PAY'
'type':'PAY','x':{'y':[null,1.5,false]}
'type':'PAY','initiationMode':5,'purpose':[]
'type':'PAY','Rules':{'Rule':[]}
'type':7,'type':'PAY'
= {'ReqPay':{
{'ReqPay':1,'ReqPay':{
= 'addr':'ann@alpha'
'addr':'ann@alpha','Ac':{'addrType':'VPA','Detail':1}
'addr':'ann@alpha','Ac':{'Detail':1}
= 'addr':'bob@beta'
'addr':'bob@beta','Amount':{'curr':'INR','value':'30'}
'addr':'bob@beta','Ac':{'addrType':1}";

/// The minutes of a payment, as they are given and as they are written.
pub const MINUTES: [&str; 2] = [
    "'id':'T1','Rules':{'Rule':[{'name':'EXPIREAFTER','value':'00090'}]}",
    "'Rules':{'Rule':[{'name':'EXPIREAFTER','value':'90'}]},'id':'T1'",
];

/// Messages that are sent, each in its line.
pub const SENT: &str =
    "{'ReqAuthDetails':{'Head':{'msgId':'M1','orgId':'SWITCH','ts':'2024-01-01T05:30:00+05:30','ver':'1.0'},'Payees':{'Payee':[{'addr':'bob@beta'}]},'Payer':{'Amount':{'curr':'INR','value':'30.00'},'addr':'ann@alpha'},'Txn':{'id':'T1','type':'PAY'}}}
{'ReqAuthDetails':{'Head':{'msgId':'M1','orgId':'SWITCH','ts':'2024-01-01T05:30:00+05:30','ver':'2.0'},'Payees':{'Payee':[{'addr':'bob@beta'}]},'Payer':{'Amount':{'curr':'INR','value':'30.00'},'addr':'ann@alpha'},'Txn':{'id':'T1','initiationMode':'01','purpose':'05','type':'PAY'}}}
{'ReqAuthDetails':{'Head':{'msgId':'M7','orgId':'SWITCH','ts':'2024-01-01T05:30:00+05:30','ver':'1.0'},'Payees':{'Payee':[{'addr':'bob@beta'}]},'Payer':{'Amount':{'curr':'INR','value':'30.00'},'addr':'ann@alpha'},'Txn':{'id':'T1','note':'a \\'b\\'','type':'PAY'}}}
{'ReqPay':{'Head':{'msgId':'M3','orgId':'SWITCH','ts':'2024-01-01T05:30:00+05:30','ver':'1.0'},'Payer':{'Ac':{'Detail':[{'name':'IFSC','value':'AAAA0000000'},{'name':'ACNUM','value':'1'}],'addrType':'ACCOUNT'},'Amount':{'curr':'INR','value':'30.00'},'addr':'ann@alpha'},'Txn':{'id':'T1','type':'DEBIT'}}}
{'ReqPay':{'Head':{'msgId':'M3','orgId':'SWITCH','ts':'2024-01-01T05:30:00+05:30','ver':'2.0'},'Payer':{'Ac':{'Detail':[{'name':'IFSC','value':'AAAA0000000'},{'name':'ACNUM','value':'1'}],'addrType':'ACCOUNT'},'Amount':{'curr':'INR','value':'30.00'},'addr':'ann@alpha'},'Txn':{'id':'T1','initiationMode':'01','purpose':'05','type':'REVERSAL'}}}
{'ReqPay':{'Head':{'msgId':'M5','orgId':'SWITCH','ts':'2024-01-01T05:30:00+05:30','ver':'1.0'},'Payees':{'Payee':[{'Ac':{'Detail':[{'name':'IFSC','value':'AAAA0000000'},{'name':'ACNUM','value':'1'}],'addrType':'ACCOUNT'},'Amount':{'curr':'INR','value':'30.00'},'addr':'ann@alpha'}]},'Txn':{'id':'T1','type':'CREDIT'}}}
{'RespAuthDetails':{'Head':{'msgId':'M2','orgId':'beta','ts':'2024-01-01T05:30:00+05:30','ver':'1.0'},'Payer':{'Amount':{'curr':'INR','value':'30.00'}},'Resp':{'reqMsgId':'M1','result':'FAILURE'},'Txn':{'id':'T1'}}}
{'RespPay':{'Head':{'msgId':'M4','orgId':'AAAA','ts':'2024-01-01T05:30:00+05:30','ver':'1.0'},'Resp':{'reqMsgId':'M3','result':'SUCCESS'},'Txn':{'id':'T1','type':'DEBIT'}}}
{'RespPay':{'Head':{'msgId':'M4','orgId':'AAAA','ts':'2024-01-01T05:30:00+05:30','ver':'1.0'},'Resp':{'errCode':'NOCREDIT','reqMsgId':'M3','result':'FAILURE'},'Txn':{'id':'T1','type':'CREDIT'}}}
{'RespTxnConfirmation':{'Head':{'msgId':'M9','orgId':'beta','ts':'2024-01-01T05:30:00+05:30','ver':'1.0'},'Resp':{'reqMsgId':'M8','result':'SUCCESS'},'Txn':{'id':'T1'}}}
{'RespPay':{'Head':{'msgId':'M5','orgId':'SWITCH','ts':'2024-01-01T05:30:00+05:30','ver':'1.0'},'Resp':{'errCode':'FUNDS','reqMsgId':'B1','result':'FAILURE'},'Txn':{'id':'T1','type':'COLLECT'}}}
{'ReqTxnConfirmation':{'Head':{'msgId':'M6','orgId':'SWITCH','ts':'2024-01-01T05:30:00+05:30','ver':'2.0'},'Resp':{'result':'DEEMED'},'Txn':{'id':'T1','type':'PAY'}}}
{'ReqTxnConfirmation':{'Head':{'msgId':'M6','orgId':'SWITCH','ts':'2024-01-01T05:30:00+05:30','ver':'1.0'},'Resp':{'errCode':'DECLINED','result':'FAILURE'},'Txn':{'id':'T1','type':'PAY'}}}";

/// The written form of messages, each in its line.
pub const WRITTEN: &str =
    "{'ReqPay':{'Head':{'msgId':'A1','orgId':'alpha','ts':'2024-01-01T05:30:00+05:30','ver':'1.0'},'Payees':{'Payee':[{'addr':'bob@beta'}]},'Payer':{'Amount':{'curr':'INR','value':'30.00'},'addr':'ann@alpha'},'Txn':{'id':'T1','type':'PAY'}}}
{'ReqPay':{'Head':{'msgId':'B1','orgId':'beta','ts':'2024-01-01T05:30:00+05:30','ver':'1.0'},'Payees':{'Payee':[{'Ac':{'Detail':[{'name':'IFSC','value':'BBBB0000000'},{'name':'ACNUM','value':'2'}],'addrType':'ACCOUNT'},'addr':'bob@beta'}]},'Payer':{'Ac':{'Detail':[{'name':'IFSC','value':'AAAA0000000'},{'name':'ACNUM','value':'1'}],'addrType':'ACCOUNT'},'Amount':{'curr':'INR','value':'30.00'},'addr':'ann@alpha'},'Txn':{'Rules':{'Rule':[{'name':'EXPIREAFTER','value':'1'}]},'id':'C1','note':'for \\'tea\\' \\\\ cake','type':'COLLECT'}}}
{'RespAuthDetails':{'Head':{'msgId':'A2','orgId':'alpha','ts':'2024-01-01T05:30:00+05:30','ver':'1.0'},'Payees':{'Payee':[{'Ac':{'Detail':[{'name':'IFSC','value':'BBBB0000000'},{'name':'ACNUM','value':'2'}],'addrType':'ACCOUNT'}}]},'Payer':{'Amount':{'curr':'INR','value':'30.00'}},'Resp':{'reqMsgId':'M1','result':'FAILURE'},'Txn':{'id':'C1'}}}
{'ReqChkTxn':{'Head':{'msgId':'A3','orgId':'alpha','ts':'2024-01-01T05:30:00+05:30','ver':'1.0'},'Txn':{'id':'T1'}}}
{'RespTxnConfirmation':{'Head':{'msgId':'B2','orgId':'beta','ts':'2024-01-01T05:30:00+05:30','ver':'1.0'},'Resp':{'reqMsgId':'M1'},'Txn':{'id':'T1'}}}
{'ReqTxnConfirmation':{'Head':{'msgId':'A9','orgId':'alpha','ts':'2024-01-01T05:30:00+05:30','ver':'1.0'}}}";

/// The answer to a question for a status; its `Resp` stands where RESP does.
pub const STATUS: &str =
    "{'RespChkTxn':{'Head':{'msgId':'S12','orgId':'SWITCH','ts':'2024-01-01T05:30:00+05:30','ver':'2.0'},'Resp':{RESP},'Txn':{'id':'T1','type':'ChkTxn'}}}";
